// A note, numbers and entries into parts of the output.
ghost use Rattle.std.specs.Prelude.{◌≡◌, ℕ, ◌*◌, List, [], ◌∷◌, length};
ghost use Rattle.recordings.specs.Layout.{pair_of};
ghost use Rattle.recordings.specs.Numbers.{bytes_of};
ghost use Rattle.std.specs.List.{flat_map};

use recordings::{ChannelEntry, ENTRY_BYTES, NUMBER_BYTES};

/// What stands in a recording as N bytes.
pub(crate) trait Item<const N: usize> {
    ghost spelled: { Self → List ℕ };

    fn bytes(&self) -> [u8; N]
        ensures { result ≡ spelled self.now };
}

/// A byte of the note.
impl Item<1> for u8 {
    ghost spelled = { λ b. b ∷ [] };

    fn bytes(&self) -> [u8; 1] {
        [*self]
    }
}

/// A number: least byte first.
impl Item<NUMBER_BYTES> for u32 {
    ghost spelled = { bytes_of };

    fn bytes(&self) -> [u8; NUMBER_BYTES] {
        self.to_le_bytes()
    }
}

/// An entry: modulus, then bound.
impl Item<ENTRY_BYTES> for ChannelEntry {
    ghost spelled = { λ e. flat_map bytes_of (pair_of e) };

    fn bytes(&self) -> [u8; ENTRY_BYTES] {
        let mut bytes = [0; ENTRY_BYTES];
        put_each(&mut bytes, &[self.modulus, self.bound]);
        bytes
    }
}

/// Items, one after another.
pub(crate) fn put_each<I: Item<N>, const N: usize>(part: &mut [u8], items: &[I])
    requires { length part.old ≡ N * length items.now }
    ensures { part.new ≡ flat_map I.spelled items.now }
{
    // By place: after a loop over `chunks_exact_mut(N).zip(items)` a proof knows the part's length and none of its bytes (tried; `returns` was left).
    for (i, item) in items.iter().enumerate() {
        part[N * i..N * i + N].copy_from_slice(&item.bytes());
    }
}
