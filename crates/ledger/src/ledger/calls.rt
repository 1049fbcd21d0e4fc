// The calls of a ledger: the numbered checks in their order, and then what is granted.
ghost use Rattle.std.specs.Prelude.{◌≡◌};
ghost use Rattle.lending.specs.Limits.{within_range};
ghost use Rattle.lending.specs.Calls.{unlike};

use crate::ledger::Ledger;
use lending::{HIGHEST_NAME, LAST_DAY, Lease, MOST_NUMBERS, Reason, Refusal};
use office::{Office, Piled};
use shares::Share;

// Whether a resource or a holder is in range.
fn in_range(name: u16) -> bool
    ensures { result ≡ within_range name }
{
    1 <= name && name <= HIGHEST_NAME
}

// Whether the lenders differ or are the house, or the holders or the due days differ.
fn unlike<S: Copy>(a: Lease<S>, b: Lease<S>) -> bool
    ensures { result ≡ unlike a b }
{
    a.lender != b.lender || a.lender == 0 || a.holder != b.holder || a.due != b.due
}

impl<'a, S: Share> Ledger<'a, S> {
    ghost use Rattle.lending.specs.Calls.{bad_due_day};
    ghost use Rattle.ledger.specs.Means.{means};

    // Whether a due day is not after today, or is after the lender's or the last day.
    fn bad_due(&self, lender: Lease<S>, due: u16) -> bool
        ensures { result ≡ bad_due_day (means self.now) lender due }
    {
        due <= self.today || due > lender.due || due > LAST_DAY
    }
}

impl<'a, S: Share> Office for Ledger<'a, S> {
    ghost use Rattle.std.specs.Prelude.{[]};
    ghost use Rattle.ledger.specs.Lawful.{ledger_lawful};
    ghost use Rattle.ledger.specs.Means.{means, rows_of, loan_of};

    type Kind = S;

    ghost meaning = { means };

    ghost rows = { rows_of };

    ghost loan = { loan_of };

    ghost layers = { λ ledger. [] };

    ghost lawful = { ledger_lawful };

    fn count(&self) -> usize {
        self.count
    }

    fn issued(&self) -> u16 {
        self.issued
    }

    fn today(&self) -> u16 {
        self.today
    }

    fn lease_at(&self, position: usize) -> Result<Lease<S>, Refusal> {
        self.at(position).ok_or(Reason::NoSuchPosition.into())
    }

    fn lease(&self, lease: u16) -> Result<Lease<S>, Refusal> {
        self.find(lease).ok_or(Reason::NotLive.into())
    }

    fn open(&mut self, resource: u16, holder: u16) -> Result<u16, Refusal> {
        if !in_range(resource) {
            return Err(Reason::ResourceOutOfRange.into());
        }
        if !in_range(holder) {
            return Err(Reason::HolderOutOfRange.into());
        }
        if self.is_open(resource) {
            return Err(Reason::ResourceIsOpen.into());
        }
        if self.issued == MOST_NUMBERS {
            return Err(Reason::NumbersUsedUp.into());
        }
        if self.full() {
            return Err(Reason::NoRowFree.into());
        }
        Ok(self.first(resource, holder))
    }

    fn delegate(&mut self, lender: u16, holder: u16, due: u16) -> Result<u16, Refusal> {
        let lease = self.find(lender).ok_or(Reason::NotLive)?;
        if !in_range(holder) {
            return Err(Reason::HolderOutOfRange.into());
        }
        if self.bad_due(lease, due) {
            return Err(Reason::DueDay.into());
        }
        let halves = lease.share.halve().ok_or(Reason::DoesNotHalve)?;
        if self.issued == MOST_NUMBERS {
            return Err(Reason::NumbersUsedUp.into());
        }
        if self.full() {
            return Err(Reason::NoRowFree.into());
        }
        Ok(self.lend(lease, holder, due, halves.0, halves.1))
    }

    fn yield_lease(&mut self, lease: u16) -> Result<(), Refusal> {
        let closed = self.find(lease).ok_or(Reason::NotLive)?;
        if self.lends(lease) {
            return Err(Reason::LeaseUnderIt.into());
        }
        self.take_back(closed);
        Ok(())
    }

    fn merge(&mut self, a: u16, b: u16) -> Result<(), Refusal> {
        let kept = self.find(a).ok_or(Reason::NotLive)?;
        let closed = self.find(b).ok_or(Reason::NotLive)?;
        if a >= b {
            return Err(Reason::WrongOrder.into());
        }
        if unlike(kept, closed) {
            return Err(Reason::NotAlike.into());
        }
        self.unite(kept, closed);
        Ok(())
    }

    fn assign(&mut self, lease: u16, holder: u16) -> Result<(), Refusal> {
        let assigned = self.find(lease).ok_or(Reason::NotLive)?;
        if !in_range(holder) {
            return Err(Reason::HolderOutOfRange.into());
        }
        if assigned.holder == holder {
            return Err(Reason::SameHolder.into());
        }
        self.hand_over(assigned, holder);
        Ok(())
    }

    fn set_day(&mut self, day: u16) -> Result<(), Refusal> {
        if day < self.today || day > LAST_DAY {
            return Err(Reason::DayOutOfRange.into());
        }
        if self.falls_due(day) {
            return Err(Reason::LeaseFallsDue.into());
        }
        self.today = day;
        Ok(())
    }
}

impl<'a, S: Share> Piled for Ledger<'a, S> {
    ghost use Rattle.ledger.specs.Lawful.{ledger_follows};

    ghost follow = { ledger_follows };
}
