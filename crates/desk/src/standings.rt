ghost use Rattle.std.specs.Prelude.{◌≡◌};
ghost use Rattle.lending.specs.Above.{standing_of};
ghost use Rattle.lending.specs.Effects.{StandingJoins, MayWrite};
ghost use Rattle.lending.specs.Outcome.Answer.{share};
ghost use Rattle.lending.specs.Outcome.Call.{standing};
ghost use Rattle.office.specs.Calls.{Conserves, Tells};
ghost use Rattle.lending.specs.Promise.{LendingConserved};

use lending::lending_is_conserved;
use office::{Office, leases};
use shares::Share;

/// What a holder's shares of a resource join to; the empty share if there are none.
pub fn standing<O: Office>(office: &O, resource: u16, holder: u16) -> O::Kind
    ensures tells { Tells O.Kind.kind O.Office (standing resource holder) (share result) office.now }
    ensures joins { StandingJoins O.Kind.kind (O.meaning office.now) resource holder result }
    ensures conserved { Conserves O.Kind.kind O.Office (standing resource holder) (share result) office.now office.now }
    ensures always { LendingConserved O.Kind.kind }
{
    lending_is_conserved::<O::Kind>();
    joined(office, resource, holder).unwrap_or(O::Kind::empty())
}

/// Whether a holder may write a resource.
pub fn may_write<O: Office>(office: &O, resource: u16, holder: u16) -> bool
    ensures is { MayWrite O.Kind.kind (O.meaning office.now) resource holder result }
    ensures always { LendingConserved O.Kind.kind }
{
    lending_is_conserved::<O::Kind>();
    standing(office, resource, holder) == O::Kind::whole()
}

// The join of a holder's shares of a resource. In every state that calls reach there is one.
fn joined<O: Office>(office: &O, resource: u16, holder: u16) -> Option<O::Kind>
    ensures { result ≡ standing_of O.Kind.kind (O.meaning office.now).core.roll resource holder }
{
    let mut all = O::Kind::empty();
    for lease in leases(office) {
        if lease.resource == resource && lease.holder == holder {
            all = all.join(lease.share)?;
        }
    }
    Some(all)
}
