ghost use Rattle.std.specs.Prelude.{OnOk, map};
ghost use Rattle.lending.specs.Promise.{LendingConserved};
ghost use Rattle.replay.specs.Books.{BookConserves};
ghost use Rattle.replay.specs.Faults.{refused_event};
ghost use Rattle.printout.specs.Adds.{AddsTo};
ghost use Rattle.printout.specs.Books.{BookPrinted};
ghost use Rattle.printout.specs.Contents.{contents_opened, printout_bytes};
ghost use Rattle.printout.specs.Readable.{IsReadable, OneContents};

use crate::append::{add_leases, add_refusal, add_refusals, add_totals};
use calls::Tallies;
use lending::lending_is_conserved;
use office::{Office, Piled};
use replay::{Fault, replay};
use shares::Printed;
use std::alloc::AllocError;

/// Replays a book over an office, and adds its printout to some bytes, and the faults of its refused events to a list.
/// The list gets its memory before the first event: where there is none, the office stays as it was. Later memory runs
/// out for the bytes alone, and then the replay is done.
#[tactic(auto, using(crate::proofs::Backs::one_shown))]
pub fn print_book<O: Piled>(
    office: &mut O,
    book: &[u8],
    faults: &mut Vec<Fault>,
    out: &mut Vec<u8>,
) -> Result<(), AllocError>
where
    O::Kind: Printed,
    ensures printed { BookPrinted O.Kind.kind O.Office O.Kind.text book.now office.old office.new faults.old faults.new
        out.old out.new result }
    ensures read_back { OneContents }
    ensures conserved { BookConserves O.Kind.kind O.Office book.now office.old }
    ensures always { LendingConserved O.Kind.kind }
{
    lending_is_conserved::<O::Kind>();
    replay_and_print(office, book, faults, out)
}

// The replay and its lines. (A function of its own, so that a wrong call of it is refused in the line that calls it.)
fn replay_and_print<O: Piled>(
    office: &mut O,
    book: &[u8],
    faults: &mut Vec<Fault>,
    out: &mut Vec<u8>,
) -> Result<(), AllocError>
where
    O::Kind: Printed,
    ensures printed { BookPrinted O.Kind.kind O.Office O.Kind.text book.now office.old office.new faults.old faults.new
        out.old out.new result }
    ensures conserved { BookConserves O.Kind.kind O.Office book.now office.old }
{
    let earlier = faults.len();
    match replay(office, book, faults)? {
        Ok(finished) => add_lines(out, office, &faults[earlier..], finished.tallies()),
        Err(fault) => add_refusal(out, fault),
    }
}

// The lines of a book that opens, by the faults of its refused events, what was counted, and the office afterwards.
fn add_lines<O: Office>(
    out: &mut Vec<u8>,
    office: &O,
    faults: &[Fault],
    tallies: Tallies,
) -> Result<(), AllocError>
where
    O::Kind: Printed,
    ensures adds { AddsTo out.old (printout_bytes (contents_opened O.Kind.kind O.Kind.text
        (map refused_event faults.now) tallies (O.meaning office.now))) result out.new }
    ensures readable { OnOk result (IsReadable (contents_opened O.Kind.kind O.Kind.text (map refused_event faults.now)
        tallies (O.meaning office.now))) }
{
    add_refusals(out, faults)?;
    add_leases(out, office)?;
    add_totals(out, office, tallies)
}
