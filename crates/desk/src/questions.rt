// The questions to an office, which change nothing.
ghost use Rattle.std.specs.Prelude.{◌≡◌};
ghost use Rattle.lending.specs.Outcome.Call.{ask_count, ask_issued, ask_today, ask_lease_at, ask_lease};
ghost use Rattle.lending.specs.Outcome.Answer.{number};
ghost use Rattle.office.specs.Calls.{Conserves, Tells};
ghost use Rattle.lending.specs.Promise.{LendingConserved};
ghost use Rattle.lending.specs.Answers.{lease_or_refused};
ghost use Rattle.office.specs.ToCome.{leases_to_come};

use lending::{Lease, Refusal, lending_is_conserved};
use office::{LiveLeases, Office};

/// How many leases are live.
pub fn count<O: Office>(office: &O) -> usize
    ensures tells { Tells O.Kind.kind O.Office ask_count (number result) office.now }
    ensures conserved { Conserves O.Kind.kind O.Office ask_count (number result) office.now office.now }
    ensures always { LendingConserved O.Kind.kind }
{
    lending_is_conserved::<O::Kind>();
    office.count()
}

/// How many numbers were issued.
pub fn issued<O: Office>(office: &O) -> u16
    ensures tells { Tells O.Kind.kind O.Office ask_issued (number result) office.now }
    ensures conserved { Conserves O.Kind.kind O.Office ask_issued (number result) office.now office.now }
    ensures always { LendingConserved O.Kind.kind }
{
    lending_is_conserved::<O::Kind>();
    office.issued()
}

/// Today.
pub fn today<O: Office>(office: &O) -> u16
    ensures tells { Tells O.Kind.kind O.Office ask_today (number result) office.now }
    ensures conserved { Conserves O.Kind.kind O.Office ask_today (number result) office.now office.now }
    ensures always { LendingConserved O.Kind.kind }
{
    lending_is_conserved::<O::Kind>();
    office.today()
}

/// The live lease at a position of the roll, from 0.
pub fn lease_at<O: Office>(office: &O, position: usize) -> Result<Lease<O::Kind>, Refusal>
    ensures tells { Tells O.Kind.kind O.Office (ask_lease_at position) (lease_or_refused result) office.now }
    ensures conserved { Conserves O.Kind.kind O.Office (ask_lease_at position) (lease_or_refused result)
        office.now office.now }
    ensures always { LendingConserved O.Kind.kind }
{
    lending_is_conserved::<O::Kind>();
    office.lease_at(position)
}

/// The live lease with a number.
pub fn lease<O: Office>(office: &O, lease: u16) -> Result<Lease<O::Kind>, Refusal>
    ensures tells { Tells O.Kind.kind O.Office (ask_lease lease) (lease_or_refused result) office.now }
    ensures conserved { Conserves O.Kind.kind O.Office (ask_lease lease) (lease_or_refused result)
        office.now office.now }
    ensures always { LendingConserved O.Kind.kind }
{
    lending_is_conserved::<O::Kind>();
    office.lease(lease)
}

/// The live leases one by one, in the order of the roll.
pub fn leases<O: Office>(office: &O) -> LiveLeases<'_, O>
    ensures is { leases_to_come O.meaning result ≡ (O.meaning office.now).core.roll }
    ensures always { LendingConserved O.Kind.kind }
{
    lending_is_conserved::<O::Kind>();
    office::leases(office)
}
