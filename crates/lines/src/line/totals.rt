ghost use Rattle.std.specs.Prelude.{◌≡◌, ◌≤◌, [], length, Some};
ghost use Rattle.arrayvec.specs.ArrayVec.{array_vec_len};
ghost use Rattle.lines.specs.Lines.{longest_line};
ghost use Rattle.lines.specs.Answers.{WritesLine};
ghost use Rattle.lines.specs.Lines.{total_line};

use super::{Line, put, write_field, write_number};
use crate::reason::LineReason;

/// The totals of a printout.
#[derive(Clone, Copy, PartialEq, Eq, Debug)]
pub struct Totals {
    /// how many numbers the office issued
    pub issued: usize,
    /// how many leases are live
    pub live: usize,
    /// how many events with a yield were granted
    pub yielded: usize,
    /// how many events with a merge were granted
    pub merged: usize,
    /// how many leases the granted recalls closed
    pub recalled: usize,
    /// how many leases the granted days closed
    pub lapsed: usize,
}

/// Writes the line of the totals.
pub fn total_line(totals: Totals, space: &mut [u8]) -> Result<usize, LineReason>
    ensures writes { WritesLine (Some (total_line totals)) space.old space.new result }
    ensures short { length (total_line totals) ≤ longest_line }
{
    let mut line = Line::new();
    write_totals(&mut line, totals);
    put(&line, space)
}

// Writes the line of the totals.
fn write_totals(line: &mut Line, totals: Totals)
    requires { line.old.items ≡ [] }
    ensures text { line.new.items ≡ total_line totals }
    ensures short { array_vec_len line.new ≤ longest_line }
{
    line.push(b'=');
    line.push(b' ');
    write_field(line, totals.issued);
    write_field(line, totals.live);
    write_field(line, totals.yielded);
    write_field(line, totals.merged);
    write_field(line, totals.recalled);
    write_number(line, totals.lapsed);
    line.push(b'\n');
}
