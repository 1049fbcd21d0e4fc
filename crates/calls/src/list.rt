// Making a list of calls, and counting what it closes.
ghost use Rattle.std.specs.Prelude.{◌≡◌, MatchOption};
ghost use Rattle.lending.specs.Choice.{ListsLeaveNoChoice};
ghost use Rattle.lending.specs.Promise.{LendingConserved};
ghost use Rattle.office.specs.Calls.{Keeps};
ghost use Rattle.calls.specs.Values.{call_meant, answer_meant};
ghost use Rattle.calls.specs.Lists.{ListMade, TooLarge, tallies_with};
ghost use Rattle.calls.specs.Plays.{ListPlayed};
ghost use Rattle.calls.specs.Quiet.{AllIdle};

use crate::call::{Answer, Call};
use crate::values::make;
use lending::{Refusal, calls_leave_no_choice, lending_is_conserved};
use office::Office;
use shares::Share;

/// How many leases some calls closed: granted yields, granted merges, recalls with hand-ins, and days.
#[derive(Clone, Copy, PartialEq, Eq, Debug, Default, Drop)]
pub struct Tallies {
    pub yielded: usize,
    pub merged: usize,
    pub recalled: usize,
    pub lapsed: usize,
}

impl Tallies {
    /// The tallies with what one call more closed, by its answer; none where a count would be too large.
    pub fn counted<S: Share>(
        self,
        call: Call,
        answer: Result<Answer<S>, Refusal>,
    ) -> Option<Tallies>
        ensures { MatchOption result (TooLarge (tallies_with self (call_meant call) (answer_meant answer)))
            (λ after. after ≡ tallies_with self (call_meant call) (answer_meant answer)) }
    {
        Some(match (call, answer) {
            (Call::Yield { .. }, Ok(Answer::Done)) => Tallies {
                yielded: self.yielded.checked_add(1)?,
                ..self
            },
            (Call::Merge { .. }, Ok(Answer::Done)) => Tallies {
                merged: self.merged.checked_add(1)?,
                ..self
            },
            (Call::Recall { .. } | Call::HandIn { .. }, Ok(Answer::Number(closed))) => Tallies {
                recalled: self.recalled.checked_add(closed)?,
                ..self
            },
            (Call::Day { .. }, Ok(Answer::Number(closed))) => Tallies {
                lapsed: self.lapsed.checked_add(closed)?,
                ..self
            },
            _ => self,
        })
    }
}

/// Makes some calls, one after another. Answers how many leases they closed.
pub fn make_all<O: Office>(office: &mut O, calls: &[Call]) -> Tallies
    ensures made { ListMade O.Kind.kind O.Office office.old calls.now result office.new }
    ensures played { ListPlayed O.Kind.kind O.Office office.old calls.now result office.new }
    ensures one_result { ListsLeaveNoChoice O.Kind.kind }
    ensures idle { AllIdle O.Kind.kind (O.meaning office.old) calls.now → office.new ≡ office.old }
    ensures keeps { Keeps O.Office office.old office.new }
    ensures always { LendingConserved O.Kind.kind }
{
    calls_leave_no_choice::<O::Kind>();
    make_each(office, calls)
}

// The calls made from the first on. (A function of its own, so that a wrong call of it is refused in the line that
// calls it, and not in the proof of the loop.)
fn make_each<O: Office>(office: &mut O, calls: &[Call]) -> Tallies
    ensures made { ListMade O.Kind.kind O.Office office.old calls.now result office.new }
    ensures played { ListPlayed O.Kind.kind O.Office office.old calls.now result office.new }
    ensures idle { AllIdle O.Kind.kind (O.meaning office.old) calls.now → office.new ≡ office.old }
    ensures keeps { Keeps O.Office office.old office.new }
    ensures always { LendingConserved O.Kind.kind }
{
    lending_is_conserved::<O::Kind>();
    let mut tallies = Tallies::default();
    for call in calls {
        let answer = make(office, *call);
        tallies = tallies.counted(*call, answer).unwrap();
    }
    tallies
}
