// The line of a fix or of a fault, built in a text of its own: the caller's buffer stays as it was where the line does not fit.
ghost use Rattle.std.specs.Prelude.{◌≡◌, ◌+◌, ◌≤◌, ◌++◌, length, decimal};
ghost use Rattle.arrayvec.specs.ArrayString.{array_string_len};
ghost use Rattle.lines.specs.Lines.{fault_line, fix_line};

use arrayvec::ArrayString;
use itoa::Buffer;
use records::{Fault, Fix};

/// Room for the longest line, a fault's: three numbers of up to 20 digits, 24 bytes of words, and the end.
const ROOM: usize = 85;

/// Appends words and the digits of a number.
fn put(line: &mut ArrayString<ROOM>, words: &str, n: u64)
    requires { array_string_len line.old + length words.now + 20 ≤ ROOM }
    ensures text { line.new.bytes ≡ line.old.bytes ++ (words.now ++ decimal n) }
    ensures few { array_string_len line.new ≤ array_string_len line.old + length words.now + 20 }
{
    line.push_str(words);
    line.push_str(Buffer::new().format(n));
}

/// The line of a fix.
pub(crate) fn line_of_fix(fix: &Fix) -> ArrayString<ROOM>
    ensures { result.bytes ≡ fix_line fix.now }
{
    let mut line = ArrayString::new();
    put(&mut line, "", fix.start);
    put(&mut line, " ", fix.count);
    put(&mut line, " ", fix.mean);
    line.push('\n');
    line
}

/// The line of a fault.
// By hand and not by its `Display`: of a `write!` into the text nothing tells that it succeeds.
pub(crate) fn line_of_fault(fault: &Fault) -> ArrayString<ROOM>
    ensures { result.bytes ≡ fault_line fault.now }
{
    let mut line = ArrayString::new();
    put(&mut line, "refused ", u64::from(fault.code));
    put(&mut line, " channel ", fault.channel as u64);
    put(&mut line, " depth ", u64::from(fault.depth));
    line.push('\n');
    line
}
