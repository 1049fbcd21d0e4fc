// The next event of a book, and the call that it asks for.
ghost use Rattle.std.specs.Prelude.{◌≡◌, ◌<◌, ◌+◌, ◌*◌, IfOk, OnOk};
ghost use Rattle.book.specs.Books.{event_count, opening};
ghost use Rattle.book.specs.Limits.{header_size, record_size, most_events};
ghost use Rattle.book.specs.Places.{further};
ghost use Rattle.calls.specs.Values.{call_meant};
ghost use Rattle.replay.specs.Events.{call_of, event_at, finishing};
ghost use Rattle.replay.specs.Faults.{refused_event_in};
ghost use Rattle.replay.specs.Turns.{event_or_refused, refused_in_place};

use crate::fault::Fault;
use book::{Book, BookReason, Code, Event, HEADER, RECORD};
use calls::Call;

// The event of a book with so many before it; its record is that very part of the book. Refused as opening, or because
// no event is left.
#[tactic(auto, unfolding(crate::specs::Events::event_at))]
pub(crate) fn next_event(book: &[u8], done: u16) -> Result<Event<'_>, Fault>
    ensures is { event_or_refused result ≡ refused_in_place (event_at book.now done) }
    ensures few { OnOk result (done < most_events) }
    ensures place { IfOk result (λ event. event.bytes.ref_ptr ≡ further book.entry.ref_ptr
        (header_size + event_count book.now + record_size * done)) }
{
    let book = Book::open(book)?;
    let event = book
        .event(usize::from(done))
        .ok_or(BookReason::NoEventLeft)?;
    Ok(event)
}

// Refused as opening, or because an event is left after so many.
pub(crate) fn none_left(book: &[u8], done: u16) -> Result<(), Fault>
    ensures { refused_event_in result ≡ finishing (opening book.now) done }
{
    let book = Book::open(book)?;
    if done < book.header.events {
        return Err(BookReason::EventsLeft.into());
    }
    Ok(())
}

// The call that a code asks for.
pub(crate) fn call_of(code: Code, operands: [u16; 3]) -> Call
    ensures { call_meant result ≡ call_of code operands }
{
    let [a, b, c] = operands;
    match code {
        Code::Open => Call::Open {
            resource: a,
            holder: b,
        },
        Code::Delegate => Call::Delegate {
            lender: a,
            holder: b,
            due: c,
        },
        Code::Yield => Call::Yield { lease: a },
        Code::Merge => Call::Merge { a, b },
        Code::Assign => Call::Assign {
            lease: a,
            holder: b,
        },
        Code::Recall => Call::Recall { lease: a },
        Code::Day => Call::Day { day: a },
    }
}
