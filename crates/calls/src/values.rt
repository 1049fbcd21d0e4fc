ghost use Rattle.std.specs.Prelude.{◌≡◌, true, is_ok};
ghost use Rattle.lending.specs.Perform.{perform};
ghost use Rattle.lending.specs.Choice.{CallsLeaveNoChoice};
ghost use Rattle.lending.specs.Idle.{idle};
ghost use Rattle.lending.specs.Promise.{LendingConserved};
ghost use Rattle.lending.specs.Answers.{number_or_refused};
ghost use Rattle.office.specs.Calls.{Performs, Conserves};
ghost use Rattle.calls.specs.Values.{call_meant, answer_meant};

use crate::call::{Answer, Call};
use desk::{
    Slip, assign, count, delegate, issued, lease, lease_at, merge, open, recall, set_day, standing,
    today, yield_lease,
};
use lending::{Refusal, calls_leave_no_choice, lending_is_conserved};
use office::Office;
use shares::Share;

/// Makes a call that is given as a value.
pub fn make<O: Office>(office: &mut O, call: Call) -> Result<Answer<O::Kind>, Refusal>
    ensures performs { Performs O.Kind.kind O.Office (call_meant call) (answer_meant result) office.old office.new }
    ensures one_result { CallsLeaveNoChoice O.Kind.kind }
    ensures idle { idle (perform O.Kind.kind (O.meaning office.old) (call_meant call)) ≡ true
        → office.new ≡ office.old }
    ensures conserved { Conserves O.Kind.kind O.Office (call_meant call) (answer_meant result) office.old office.new }
    ensures always { LendingConserved O.Kind.kind }
{
    lending_is_conserved::<O::Kind>();
    calls_leave_no_choice::<O::Kind>();
    ask(office, call)
}

// Makes the call by the function of `desk` that has its name.
#[tactic(auto, using(lending::proofs::Idling::idle_open, lending::proofs::Idling::idle_delegate, lending::proofs::Idling::idle_yield, lending::proofs::Idling::idle_merge, lending::proofs::Idling::idle_assign, lending::proofs::Idling::idle_day, lending::proofs::Idling::idle_recall, lending::proofs::Idling::idle_next))]
fn ask<O: Office>(office: &mut O, call: Call) -> Result<Answer<O::Kind>, Refusal>
    ensures performs { Performs O.Kind.kind O.Office (call_meant call) (answer_meant result) office.old office.new }
    ensures idle { idle (perform O.Kind.kind (O.meaning office.old) (call_meant call)) ≡ true
        → office.new ≡ office.old }
{
    match call {
        Call::Open { resource, holder } => {
            open(office, resource, holder).map(|number| Answer::Number(usize::from(number)))
        }
        Call::Delegate {
            lender,
            holder,
            due,
        } => delegate(office, lender, holder, due).map(|number| Answer::Number(usize::from(
            number,
        ))),
        Call::Yield { lease } => yield_lease(office, lease).map(|()| Answer::Done),
        Call::Merge { a, b } => merge(office, a, b).map(|()| Answer::Done),
        Call::Assign { lease, holder } => assign(office, lease, holder).map(|()| Answer::Done),
        Call::SetDay { day } => set_day(office, day).map(|()| Answer::Done),
        Call::Count => Ok(Answer::Number(count(office))),
        Call::Issued => Ok(Answer::Number(usize::from(issued(office)))),
        Call::Today => Ok(Answer::Number(usize::from(today(office)))),
        Call::LeaseAt { position } => lease_at(office, usize::from(position)).map(Answer::Lease),
        Call::LeaseOf { number } => lease(office, number).map(Answer::Lease),
        Call::Recall { lease } => number_closed(recall(office, lease)),
        Call::Day { day } => number_closed(desk::day(office, day)),
        Call::Standing { resource, holder } => {
            Ok(Answer::Share(standing(office, resource, holder)))
        }
        Call::HandIn { lease } => Ok(Answer::Number(Slip::draw(lease).hand_in(office))),
    }
}

// How many leases a call closed, as its answer.
fn number_closed<S: Share>(closed: Result<usize, Refusal>) -> Result<Answer<S>, Refusal>
    ensures told { answer_meant result ≡ number_or_refused closed }
    ensures granted { is_ok result ≡ is_ok closed }
{
    closed.map(|leases| Answer::Number(leases))
}
