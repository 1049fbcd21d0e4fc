ghost use Rattle.std.specs.Prelude.{◌≡◌, ◌+◌, ◌≤◌, [], ◌++◌, length, Some};
ghost use Rattle.arrayvec.specs.ArrayVec.{array_vec_len};
ghost use Rattle.lines.specs.Lines.{longest_line};
ghost use Rattle.lines.specs.declared.line.TheConstants.{ROOM};
ghost use Rattle.lines.specs.Answers.{WritesLine};
ghost use Rattle.lines.specs.Lines.{refusal_line, level_text};

use super::{Line, put, write_field, write_number};
use crate::reason::LineReason;

/// Writes the line of a refused event, by its place in the book, the number of the refusal, and its level if it has
/// one.
pub fn refusal_line(
    event: usize,
    number: u8,
    level: Option<u8>,
    space: &mut [u8],
) -> Result<usize, LineReason>
    ensures writes { WritesLine (Some (refusal_line event number level)) space.old space.new result }
    ensures short { length (refusal_line event number level) ≤ longest_line }
{
    let mut line = Line::new();
    write_refusal(&mut line, event, number, level);
    put(&line, space)
}

// Writes the line of a refused event.
fn write_refusal(line: &mut Line, event: usize, number: u8, level: Option<u8>)
    requires { line.old.items ≡ [] }
    ensures text { line.new.items ≡ refusal_line event number level }
    ensures short { array_vec_len line.new ≤ longest_line }
{
    line.push(b'!');
    line.push(b' ');
    write_field(line, event);
    write_field(line, number);
    write_level(line, level);
    line.push(b'\n');
}

// Writes the level of a refusal, or `-` if it has none.
fn write_level(line: &mut Line, level: Option<u8>)
    requires { array_vec_len line.old + 3 ≤ ROOM }
    ensures text { line.new.items ≡ line.old.items ++ level_text level }
    ensures short { array_vec_len line.new ≤ array_vec_len line.old + 3 }
{
    match level {
        Some(level) => write_number(line, level),
        None => line.push(b'-'),
    }
}
