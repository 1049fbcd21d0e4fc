ghost use Rattle.std.specs.Prelude.{◌≡◌, true, map, nat_eq};
ghost use Rattle.std.specs.List.{list_any};
ghost use Rattle.std.specs.List.Sorted.{IsNonDecreasingBy};
ghost use Rattle.lending.specs.Effects.{TakesBack};
ghost use Rattle.lending.specs.Outcome.Answer.{number};
ghost use Rattle.lending.specs.Outcome.Call.{recall};
ghost use Rattle.lending.specs.Promise.{LendingConserved};
ghost use Rattle.lending.specs.Roll.{live, family};
ghost use Rattle.lending.specs.Answers.{number_or_refused};
ghost use Rattle.office.specs.Calls.{Performs, Conserves};

use crate::sweep::{Numbers, yield_down};
use lending::{Reason, Refusal, lending_is_conserved};
use office::{Office, leases};

/// Closes a lease and all under it, and answers how many.
pub fn recall<O: Office>(office: &mut O, lease: u16) -> Result<usize, Refusal>
    ensures performs { Performs O.Kind.kind O.Office (recall lease) (number_or_refused result) office.old office.new }
    ensures takes_back { TakesBack O.Kind.kind (O.meaning office.old) lease (O.meaning office.new) }
    ensures conserved { Conserves O.Kind.kind O.Office (recall lease) (number_or_refused result) office.old office.new }
    ensures always { LendingConserved O.Kind.kind }
{
    lending_is_conserved::<O::Kind>();
    if office.lease(lease).is_err() {
        return Err(Reason::NotLive.into());
    }
    Ok(take_back(office, lease))
}

// The same of a live lease.
#[tactic(auto, using(crate::proofs::Closing::recalled))]
fn take_back<O: Office>(office: &mut O, lease: u16) -> usize
    requires { live (O.meaning office.old).core.roll lease ≡ true }
    ensures performs { Performs O.Kind.kind O.Office (recall lease) (number result) office.old office.new }
{
    let numbers = family_of(office, lease);
    yield_down(office, numbers.as_slice());
    numbers.len()
}

// The numbers of a lease and of all live leases under it. A lender's number is lower, so that one pass over the roll
// finds them.
fn family_of<O: Office>(office: &O, top: u16) -> Numbers
    requires { live (O.meaning office.now).core.roll top ≡ true }
    ensures { result.items ≡ map (λ l. l.number) (family (O.meaning office.now).core.roll top) }
{
    let mut numbers = Numbers::new();
    for lease in leases(office) {
        if lease.number == top || has(numbers.as_slice(), lease.lender) {
            numbers.push(lease.number);
        }
    }
    numbers
}

// Whether a number is among some that rise.
fn has(numbers: &[u16], number: u16) -> bool
    requires { IsNonDecreasingBy (λ n. n) numbers.now }
    ensures { result ≡ list_any (λ n. nat_eq n number) numbers.now }
{
    numbers.binary_search(&number).is_ok()
}
