// Lines of a printout, each added to some bytes.
ghost use Rattle.std.specs.Prelude.{◌≡◌, ◌<◌, [], length, map, OnOk};
ghost use Rattle.std.specs.List.{AllByRecursion, concat};
ghost use Rattle.std.specs.Option.{unwrap_or};
ghost use Rattle.lines.specs.Lines.{line_at, refusal_line, total_line};
ghost use Rattle.replay.specs.Faults.{refused_event};
ghost use Rattle.printout.specs.Adds.{AddsTo};
ghost use Rattle.printout.specs.Readable.{ReadableRefusal, ReadableTotals};
ghost use Rattle.printout.specs.Contents.{line_of_refusal, refusal_lines, lease_entries, lease_lines, totals_of};

use calls::Tallies;
use desk::{count, issued};
use lines::{LONGEST_LINE, Totals, lease_line, refusal_line, total_line};
use office::Office;
use replay::Fault;
use shares::Printed;
use std::alloc::AllocError;

// The line of a refused event.
pub(crate) fn add_refusal(out: &mut Vec<u8>, fault: Fault) -> Result<(), AllocError>
    ensures adds { AddsTo out.old (line_of_refusal (refused_event fault)) result out.new }
    ensures readable { ReadableRefusal (refused_event fault) }
{
    add_refusal_line(out, usize::from(fault.event), fault.number(), fault.level())
}

// The same, by its place in the book, the number of the refusal, and its level if it has one.
fn add_refusal_line(
    out: &mut Vec<u8>,
    event: usize,
    number: u8,
    level: Option<u8>,
) -> Result<(), AllocError>
    ensures { AddsTo out.old (refusal_line event number level) result out.new }
{
    let mut space = [0; LONGEST_LINE];
    let length = refusal_line(event, number, level, &mut space).unwrap();
    out.extend_from_slice(&space[..length])
}

// The lines of refused events.
#[tactic(auto, using(crate::proofs::Added::adds_first))]
pub(crate) fn add_refusals(out: &mut Vec<u8>, faults: &[Fault]) -> Result<(), AllocError>
    ensures adds { AddsTo out.old (concat (refusal_lines (map refused_event faults.now))) result out.new }
    ensures readable { OnOk result (AllByRecursion ReadableRefusal (map refused_event faults.now)) }
{
    for fault in faults {
        add_refusal(out, *fault)?;
    }
    Ok(())
}

// The lines of the live leases.
#[tactic(auto, using(crate::proofs::Added::adds_first))]
pub(crate) fn add_leases<O: Office>(out: &mut Vec<u8>, office: &O) -> Result<(), AllocError>
where
    O::Kind: Printed,
    ensures { AddsTo out.old (concat (lease_lines (lease_entries O.Kind.kind O.Kind.text
        (O.meaning office.now).core.roll))) result out.new }
{
    for position in 0..count(office) {
        add_lease(out, office, position)?;
    }
    Ok(())
}

// The line of the live lease at a position.
#[tactic(auto, using(crate::proofs::Adding::fits))]
fn add_lease<O: Office>(out: &mut Vec<u8>, office: &O, position: usize) -> Result<(), AllocError>
where
    O::Kind: Printed,
    requires { position < length (O.meaning office.now).core.roll }
    ensures { AddsTo out.old (unwrap_or (line_at O.Kind.kind O.Kind.text (O.meaning office.now).core.roll position) [])
        result out.new }
{
    let mut space = [0; LONGEST_LINE];
    let length = lease_line(office, position, &mut space).unwrap();
    out.extend_from_slice(&space[..length])
}

// The line of the totals.
pub(crate) fn add_totals<O: Office>(
    out: &mut Vec<u8>,
    office: &O,
    tallies: Tallies,
) -> Result<(), AllocError>
    ensures adds { AddsTo out.old (total_line (totals_of tallies (O.meaning office.now))) result out.new }
    ensures readable { ReadableTotals (totals_of tallies (O.meaning office.now)) }
{
    add_total_line(out, totals_of(office, tallies))
}

fn add_total_line(out: &mut Vec<u8>, totals: Totals) -> Result<(), AllocError>
    ensures adds { AddsTo out.old (total_line totals) result out.new }
    ensures readable { ReadableTotals totals }
{
    let mut space = [0; LONGEST_LINE];
    let length = total_line(totals, &mut space).unwrap();
    out.extend_from_slice(&space[..length])
}

// What the office says at the end, and what was counted.
fn totals_of<O: Office>(office: &O, tallies: Tallies) -> Totals
    ensures { result ≡ totals_of tallies (O.meaning office.now) }
{
    let Tallies {
        yielded,
        merged,
        recalled,
        lapsed,
    } = tallies;
    Totals {
        issued: usize::from(issued(office)),
        live: count(office),
        yielded,
        merged,
        recalled,
        lapsed,
    }
}
