// What the lines are made of. The three kinds of line stand below, so that what they share is private.
pub(crate) mod leases;
pub(crate) mod refusals;
pub(crate) mod totals;

ghost use Rattle.std.specs.Prelude.{◌≡◌, ◌+◌, ◌<◌, ◌≤◌, ◌++◌, length, codes, Some};
ghost use Rattle.arrayvec.specs.ArrayVec.{array_vec_len};
ghost use Rattle.lines.specs.declared.line.TheConstants.{ROOM};
ghost use Rattle.lines.specs.Answers.{WritesLine};

use crate::reason::LineReason;
use arrayvec::ArrayVec;
use itoa::{Buffer, Integer};

/// The most bytes that a line takes, its newline too.
pub const LONGEST_LINE: usize = 219;

// The bytes that a line under way has room for: more than any line, so that each field fits by the most that its type
// can take.
const ROOM: usize = 256;

// A line under way. Its bytes lie in the value itself, since an office has no heap, and no line has more. (Its pieces
// are added one by one: what `write!` promises, it promises of an Ok alone, and no line may fail that fits its space.)
type Line = ArrayVec<u8, ROOM>;

// Adds some bytes to a line.
fn write_bytes(line: &mut Line, bytes: &[u8])
    requires { array_vec_len line.old + length bytes.now ≤ ROOM }
    ensures text { line.new.items ≡ line.old.items ++ bytes.now }
    ensures len { array_vec_len line.new ≡ array_vec_len line.old + length bytes.now }
{
    line.try_extend_from_slice(bytes).unwrap();
}

// Writes a number in decimal, and a blank.
fn write_field<I: Integer>(line: &mut Line, n: I)
    requires { array_vec_len line.old + I.MAX_STR_LEN < ROOM }
    ensures text { line.new.items ≡ line.old.items ++ (I.text n ++ codes " ") }
    ensures short { array_vec_len line.new ≤ array_vec_len line.old + I.MAX_STR_LEN + 1 }
{
    write_number(line, n);
    line.push(b' ');
}

// Writes a number in decimal.
fn write_number<I: Integer>(line: &mut Line, n: I)
    requires { array_vec_len line.old + I.MAX_STR_LEN ≤ ROOM }
    ensures text { line.new.items ≡ line.old.items ++ I.text n }
    ensures short { array_vec_len line.new ≤ array_vec_len line.old + I.MAX_STR_LEN }
{
    let mut buffer = Buffer::new();
    write_bytes(line, buffer.format(n).as_bytes());
}

// Copies a line to the front of a space, if it is long enough.
fn put(line: &Line, space: &mut [u8]) -> Result<usize, LineReason>
    ensures writes { WritesLine (Some line.now.items) space.old space.new result }
{
    let length = line.len();
    if length > space.len() {
        return Err(LineReason::LineTooLong);
    }
    space[..length].copy_from_slice(line.as_slice());
    Ok(length)
}
