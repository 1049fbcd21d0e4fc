ghost use Rattle.std.specs.Prelude.{◌≡◌, true, false};
ghost use Rattle.lending.specs.Effects.{TakesBack};
ghost use Rattle.lending.specs.Outcome.Answer.{number};
ghost use Rattle.lending.specs.Outcome.Call.{hand_in};
ghost use Rattle.lending.specs.Perform.{perform};
ghost use Rattle.lending.specs.Idle.{idle};
ghost use Rattle.lending.specs.Promise.{LendingConserved};
ghost use Rattle.office.specs.Calls.{Performs, Conserves};
ghost use Rattle.desk.specs.Slips.{lease_of, was_handed_in};

use crate::recalls::recall;
use lending::lending_is_conserved;
use office::Office;

/// A slip for a lease of any number. It must be handed in, just once: it can't be copied, handing it in uses it up, and
/// a program that lets one go before, on whichever way out, is refused by the check, which asks at each drop that it
/// was handed in.
pub struct Slip {
    lease: u16,
    handed_in: bool,
}

impl Drop for Slip {
    fn drop(self)
        requires handed_in { was_handed_in self ≡ true }
    {
        let Self {
            lease: _,
            handed_in: _,
        } = self;
    }
}

impl Slip {
    /// Draws a slip for a lease.
    pub fn draw(lease: u16) -> Slip
        ensures lease { lease_of result ≡ lease }
        ensures drawn { was_handed_in result ≡ false }
    {
        Slip {
            lease,
            handed_in: false,
        }
    }

    /// Recalls the lease if it is live, and answers how many leases that closed, else 0.
    pub fn hand_in<O: Office>(mut self, office: &mut O) -> usize
        ensures performs { Performs O.Kind.kind O.Office (hand_in (lease_of self)) (number result)
            office.old office.new }
        ensures takes_back { TakesBack O.Kind.kind (O.meaning office.old) (lease_of self) (O.meaning office.new) }
        ensures idle { idle (perform O.Kind.kind (O.meaning office.old) (hand_in (lease_of self))) ≡ true
            → office.new ≡ office.old }
        ensures conserved { Conserves O.Kind.kind O.Office (hand_in (lease_of self)) (number result)
            office.old office.new }
        ensures always { LendingConserved O.Kind.kind }
    {
        lending_is_conserved::<O::Kind>();
        self.handed_in = true;
        recall_if_live(office, self.lease)
    }
}

// Recalls a lease if it is live, and answers how many leases that closed, else 0.
#[tactic(auto, using(crate::proofs::Closing::handed_in, crate::proofs::Closing::idle_hand_in))]
fn recall_if_live<O: Office>(office: &mut O, lease: u16) -> usize
    ensures performs { Performs O.Kind.kind O.Office (hand_in lease) (number result) office.old office.new }
    ensures idle { idle (perform O.Kind.kind (O.meaning office.old) (hand_in lease)) ≡ true → office.new ≡ office.old }
{
    recall(office, lease).unwrap_or(0)
}
