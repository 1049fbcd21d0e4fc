// The calls that change an office.
ghost use Rattle.lending.specs.Outcome.Call.{open_resource, delegate, yield, merge, assign, new_day};
ghost use Rattle.lending.specs.Promise.{LendingConserved};
ghost use Rattle.lending.specs.Answers.{done_or_refused, number_or_refused};
ghost use Rattle.office.specs.Calls.{Performs, Conserves};

use lending::{Refusal, lending_is_conserved};
use office::Office;

/// Opens a resource: the holder gets its first lease, with the whole. Answers its number.
pub fn open<O: Office>(office: &mut O, resource: u16, holder: u16) -> Result<u16, Refusal>
    ensures performs { Performs O.Kind.kind O.Office (open_resource resource holder) (number_or_refused result)
        office.old office.new }
    ensures conserved { Conserves O.Kind.kind O.Office (open_resource resource holder) (number_or_refused result)
        office.old office.new }
    ensures always { LendingConserved O.Kind.kind }
{
    lending_is_conserved::<O::Kind>();
    office.open(resource, holder)
}

/// Lends half of a lease's share to a holder, until a day. Answers the new lease's number.
pub fn delegate<O: Office>(
    office: &mut O,
    lender: u16,
    holder: u16,
    due: u16,
) -> Result<u16, Refusal>
    ensures performs { Performs O.Kind.kind O.Office (delegate lender holder due) (number_or_refused result)
        office.old office.new }
    ensures conserved { Conserves O.Kind.kind O.Office (delegate lender holder due) (number_or_refused result)
        office.old office.new }
    ensures always { LendingConserved O.Kind.kind }
{
    lending_is_conserved::<O::Kind>();
    office.delegate(lender, holder, due)
}

/// Closes a lease, and joins its share to its lender's.
pub fn yield_lease<O: Office>(office: &mut O, lease: u16) -> Result<(), Refusal>
    ensures performs { Performs O.Kind.kind O.Office (yield lease) (done_or_refused result) office.old office.new }
    ensures conserved { Conserves O.Kind.kind O.Office (yield lease) (done_or_refused result) office.old office.new }
    ensures always { LendingConserved O.Kind.kind }
{
    lending_is_conserved::<O::Kind>();
    office.yield_lease(lease)
}

/// Closes lease b; lease a gets both shares, and lends what b lent.
pub fn merge<O: Office>(office: &mut O, a: u16, b: u16) -> Result<(), Refusal>
    ensures performs { Performs O.Kind.kind O.Office (merge a b) (done_or_refused result) office.old office.new }
    ensures conserved { Conserves O.Kind.kind O.Office (merge a b) (done_or_refused result) office.old office.new }
    ensures always { LendingConserved O.Kind.kind }
{
    lending_is_conserved::<O::Kind>();
    office.merge(a, b)
}

/// Changes the holder of a lease.
pub fn assign<O: Office>(office: &mut O, lease: u16, holder: u16) -> Result<(), Refusal>
    ensures performs { Performs O.Kind.kind O.Office (assign lease holder) (done_or_refused result)
        office.old office.new }
    ensures conserved { Conserves O.Kind.kind O.Office (assign lease holder) (done_or_refused result)
        office.old office.new }
    ensures always { LendingConserved O.Kind.kind }
{
    lending_is_conserved::<O::Kind>();
    office.assign(lease, holder)
}

/// Changes today.
pub fn set_day<O: Office>(office: &mut O, day: u16) -> Result<(), Refusal>
    ensures performs { Performs O.Kind.kind O.Office (new_day day) (done_or_refused result) office.old office.new }
    ensures conserved { Conserves O.Kind.kind O.Office (new_day day) (done_or_refused result) office.old office.new }
    ensures always { LendingConserved O.Kind.kind }
{
    lending_is_conserved::<O::Kind>();
    office.set_day(day)
}
