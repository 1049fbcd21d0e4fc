ghost use Rattle.std.specs.Prelude.{◌≡◌, ◌<◌, ◌≤◌, ◌+◌, ◌*◌, ◌^◌, true, false, OnErr};
ghost use Rattle.office.specs.Calls.{Keeps};
ghost use Rattle.book.specs.Events.{code_and_operands};
ghost use Rattle.calls.specs.Lists.{all_closed};
ghost use Rattle.replay.specs.Events.{asks};
ghost use Rattle.replay.specs.Limits.{most_closed};
ghost use Rattle.replay.specs.Turns.{Comes, tallies_kept};
ghost use Rattle.replay.specs.Quiet.{quiet};

use crate::event::{call_of, next_event, none_left};
use crate::fault::Fault;
use book::{BookReason, Event};
use calls::{Tallies, make};
use lending::lending_is_conserved;
use office::Office;

/// A session that is reading: how many events are done, and what their calls closed. It doesn't keep the book.
#[derive(PartialEq, Eq, Debug, Drop)]
pub struct Reading {
    done: u16,
    tallies: Tallies,
    ghost few: { all_closed tallies ≤ most_closed * done },
}

impl Reading {
    ghost use Rattle.lending.specs.Promise.{LendingConserved};
    ghost use Rattle.book.specs.Books.{opening};
    ghost use Rattle.replay.specs.Events.{next};
    ghost use Rattle.replay.specs.Sessions.{events_done, closed_so_far};
    ghost use Rattle.replay.specs.Steps.{Steps, Finishes};

    /// A session before the first event.
    pub fn new() -> Reading
        ensures begins { events_done result ≡ 0 }
        ensures counted { all_closed (closed_so_far result) ≡ 0 }
    {
        Reading {
            done: 0,
            tallies: Tallies::default(),
        }
    }

    /// Does the next event of a book. Where no event is reached, the session and the office stay as they were; a
    /// refused event is done with, and leaves the office as it was.
    #[tactic(auto, using(crate::proofs::Stepping::refused_step))]
    pub fn step<O: Office>(&mut self, office: &mut O, book: &[u8]) -> Result<(), Fault>
        ensures steps { Steps O.Kind.kind (next book.now (events_done self.old)) (O.meaning office.old) self.old result
            self.new (O.meaning office.new) }
        ensures same { OnErr result (office.new ≡ office.old) }
        ensures idle { quiet O.Kind.kind (O.meaning office.old) (next book.now (events_done self.old)) ≡ true
            → office.new ≡ office.old }
        ensures keeps { Keeps O.Office office.old office.new }
        ensures always { LendingConserved O.Kind.kind }
    {
        lending_is_conserved::<O::Kind>();
        let event = next_event(book, self.done)?;
        let made = make_event(office, event, self.tallies);
        self.done += 1;
        match made {
            Ok(tallies) => {
                self.tallies = tallies;
                Ok(())
            }
            Err(mut fault) => {
                fault.event = self.done;
                Err(fault)
            }
        }
    }

    /// Ends the session, once every event of the book is done. Refused, it is handed back as it was.
    pub fn finish(self, book: &[u8]) -> Result<Finished, (Reading, Fault)>
        ensures { Finishes (opening book.now) self result }
    {
        match none_left(book, self.done) {
            Ok(()) => {
                let Reading { done: _, tallies } = self;
                Ok(Finished {
                    closed: tallies,
                    ended: true,
                })
            }
            Err(fault) => Err((self, fault)),
        }
    }
}

// Makes the call that an event asks for, and answers the tallies with what it closed. A fault names no event.
fn make_event<O: Office>(office: &mut O, event: Event, tallies: Tallies) -> Result<Tallies, Fault>
    requires { all_closed tallies < 2 ^ 63 }
    ensures comes { Comes O.Kind.kind (asks (code_and_operands event.entry.code event.entry.bytes.now)) 0
        (O.meaning office.old) tallies result (tallies_kept tallies result) (O.meaning office.new) }
    ensures few { all_closed (tallies_kept tallies result) ≤ all_closed tallies + most_closed }
    ensures same { OnErr result (office.new ≡ office.old) }
    ensures idle { quiet O.Kind.kind (O.meaning office.old)
        (asks (code_and_operands event.entry.code event.entry.bytes.now)) ≡ true → office.new ≡ office.old }
    ensures keeps { Keeps O.Office office.old office.new }
{
    let (code, operands) = event.code_and_operands()?;
    let call = call_of(code, operands);
    let answer = make(office, call)?;
    let after = tallies.counted(call, Ok(answer)).unwrap();
    Ok(after)
}

/// A session that was finished, with what it counted.
#[derive(PartialEq, Eq, Debug, Drop)]
pub struct Finished {
    closed: Tallies,
    // which it has, whenever one is handed out
    ended: bool,
}

impl Finished {
    ghost use Rattle.replay.specs.Sessions.{closed_in_all, has_ended};

    /// How many leases the calls of the replay closed.
    pub fn tallies(&self) -> Tallies
        ensures { result ≡ closed_in_all self.now }
    {
        self.closed
    }

    /// A finished session takes no step: begin a new replay. This is there to be refused by the check at every call,
    /// which asks that the session has not ended.
    pub fn step<O: Office>(&self, _office: &mut O, _book: &[u8]) -> Result<(), Fault>
        requires reading { has_ended self.now ≡ false }
    {
        Err(BookReason::NoEventLeft.into())
    }
}
