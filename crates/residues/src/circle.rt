// What a reading allows, as a test.
ghost use Rattle.std.specs.Prelude.{◌≡◌, ◌-◌, ◌<◌, ◌≤◌, min, false, T, ◌↔◌};
ghost use Rattle.residues.specs.Circle.{Allows, Errs};

// The shorter of the two ways round, where one of them is `ahead`.
fn shorter_way(length: u64, ahead: u64) -> u64
    requires { ahead ≤ length }
    ensures { result ≡ min ahead (length - ahead) }
{
    ahead.min(length - ahead)
}

/// Whether a reading with this modulus and bound allows the position. No
/// reading allows anything round a circle of length 0.
pub fn allows(modulus: u32, bound: u32, reading: u32, position: i64) -> bool
    ensures distance { 0 < modulus → T result ↔ Allows modulus bound reading position }
    ensures errors { 0 < modulus → Allows modulus bound reading position ↔ Errs modulus bound reading position }
    ensures nowhere { modulus ≡ 0 → result ≡ false }
{
    if modulus == 0 {
        return false;
    }
    let length = u64::from(modulus);
    let on_circle = position.rem_euclid(i64::from(modulus)) as u64;
    let ahead = (u64::from(reading) + (length - on_circle)) % length;
    shorter_way(length, ahead) <= u64::from(bound)
}
