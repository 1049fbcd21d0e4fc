ghost use Rattle.std.specs.Prelude.{◌≡◌, ◌+◌, ◌<◌, [], ◌∷◌, drop, MatchOption, IsSome};
ghost use Rattle.std.specs.Iterator.{YieldsFirst, item_count};
ghost use Rattle.lending.specs.Limits.{most_rows};
ghost use Rattle.office.specs.ToCome.{leases_to_come};

use crate::office::Office;
use lending::Lease;

/// The live leases of an office from a position of the roll on.
#[derive(Drop)]
pub struct LiveLeases<'a, O> {
    office: &'a O,
    position: usize,
}

/// The live leases of an office, in the order of the roll.
pub fn leases<O: Office>(office: &O) -> LiveLeases<'_, O>
    ensures { leases_to_come O.meaning result ≡ (O.meaning office.now).core.roll }
{
    LiveLeases {
        office,
        position: 0,
    }
}

// The lease at a position of the roll, which is the first of those from there on, if there is one. (A function of
// its own, so that a wrong one is refused in its own line, and not in the proof of `next`.)
fn first_from<O: Office>(office: &O, position: usize) -> Option<Lease<O::Kind>>
    ensures comes { let roll = (O.meaning office.now).core.roll in MatchOption result (drop position roll ≡ [])
        (λ lease. drop position roll ≡ lease ∷ drop (position + 1) roll) }
    ensures within { IsSome result → position < most_rows }
{
    office.lease_at(position).ok()
}

impl<'a, O: Office> Iterator for LiveLeases<'a, O> {
    type Item = Lease<O::Kind>;

    ghost next_gives = { YieldsFirst (leases_to_come O.meaning) };

    ghost remaining = { item_count (leases_to_come O.meaning) };

    fn next(&mut self) -> Option<Lease<O::Kind>> {
        let lease = first_from(self.office, self.position)?;
        self.position += 1;
        Some(lease)
    }
}
