ghost use Rattle.std.specs.Prelude.{◌≡◌, ◌≤◌, ◌+◌, IfOk, take, vec_len, vec_capacity};
ghost use Rattle.lending.specs.Promise.{LendingConserved};
ghost use Rattle.office.specs.Calls.{Keeps, EachFollows};
ghost use Rattle.book.specs.Books.{opening, event_count};
ghost use Rattle.replay.specs.Books.{added, BookReplayed, BookRun, OneBookReplay, BookConserves, BookQuiet, BookRead};
ghost use Rattle.replay.specs.Faults.{refused_event_in};
ghost use Rattle.replay.specs.Sessions.{events_done, closed_so_far, closed_in_all};
ghost use Rattle.replay.specs.Whole.{Opens, opening_refused};

use crate::fault::Fault;
use crate::session::{Finished, Reading};
use book::Book;
use lending::lending_is_conserved;
use office::Office;
use std::alloc::AllocError;

/// Replays a book over an office: each of its events is stepped once, in their order, and the session is finished. The
/// faults of the refused events are added to a list that the caller owns. Refused only as opening is; then office and
/// list stay as they were. So they do where memory runs out: what the list needs is taken before the first event.
pub fn replay<O: Office>(
    office: &mut O,
    book: &[u8],
    faults: &mut Vec<Fault>,
) -> Result<Result<Finished, Fault>, AllocError>
    ensures reads { BookRead O.Kind.kind O.Office book.now office.old office.new faults.old faults.new result }
    ensures runs { EachFollows O.Office → IfOk result (λ outcome. IfOk outcome (λ finished.
        BookRun O.Kind.kind O.Office book.now office.old (added faults.old faults.new)
        (closed_in_all finished) office.new)) }
    ensures once { EachFollows O.Office → OneBookReplay O.Kind.kind O.Office book.now office.old }
    ensures conserved { BookConserves O.Kind.kind O.Office book.now office.old }
    ensures always { LendingConserved O.Kind.kind }
{
    lending_is_conserved::<O::Kind>();
    read_book(office, book, faults)
}

// The book read. (A function of its own, so that a wrong body is refused in its own line, and not in the proof of what
// follows from it.)
fn read_book<O: Office>(
    office: &mut O,
    book: &[u8],
    faults: &mut Vec<Fault>,
) -> Result<Result<Finished, Fault>, AllocError>
    ensures { BookRead O.Kind.kind O.Office book.now office.old office.new faults.old faults.new result }
{
    let events = match count_events(book) {
        Ok(events) => events,
        Err(fault) => return Ok(Err(fault)),
    };
    faults.reserve(usize::from(events))?;
    let session = read_events(office, book, events, faults);
    Ok(match session.finish(book) {
        Ok(finished) => Ok(finished),
        Err((_, fault)) => Err(fault),
    })
}

// How many events a book has, if it opens.
#[tactic(auto, using(crate::proofs::Running::header_counts))]
fn count_events(book: &[u8]) -> Result<u16, Fault>
    ensures refused { refused_event_in result ≡ opening_refused (opening book.now) }
    ensures opens { IfOk result (λ events. Opens (opening book.now) events) }
    ensures counts { IfOk result (λ events. events ≡ event_count book.now) }
{
    let book = Book::open(book)?;
    Ok(book.header.events)
}

// Steps every event of a book that opens and has so many. (A function of its own, so that a wrong call of it is refused
// in the line that calls it, and not in the proof of the loop.)
fn read_events<O: Office>(
    office: &mut O,
    book: &[u8],
    events: u16,
    faults: &mut Vec<Fault>,
) -> Reading
    requires opens { Opens (opening book.now) events }
    requires counted { events ≡ event_count book.now }
    requires room { vec_len faults.old + events ≤ vec_capacity faults.old }
    ensures replays { BookReplayed O.Kind.kind O.Office book.now office.old (added faults.old faults.new)
        (closed_so_far result) office.new }
    ensures kept { take (vec_len faults.old) faults.new.items ≡ faults.old.items }
    ensures done { events_done result ≡ events }
    ensures idle { BookQuiet O.Kind.kind O.Office book.now office.old → office.new ≡ office.old }
    ensures keeps { Keeps O.Office office.old office.new }
{
    lending_is_conserved::<O::Kind>();
    let mut session = Reading::new();
    for _event in 0..events {
        if let Err(fault) = session.step(office, book) {
            faults.push(fault).unwrap();
        }
    }
    session
}
