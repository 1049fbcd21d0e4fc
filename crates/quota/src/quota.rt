ghost use Rattle.std.specs.Prelude.{◌≡◌};
ghost use Rattle.lending.specs.Roll.{count_held};
ghost use Rattle.layer.specs.Covers.{Covers};
ghost use Rattle.quota.specs.Means.{quota_rule};

use layer::{Layer, Request, Rule};
use lending::Reason;
use office::{Office, leases};

/// A layer with this rule objects where a holder that has `limit` leases would get one more.
#[derive(Clone, Copy, PartialEq, Eq, Debug, Drop)]
pub struct Quota {
    limit: u16,
}

impl Quota {
    /// The layer with this rule over an office. It says by the definition of this rule what the layer stands for, which
    /// `Layer::new` can say of no rule in particular.
    pub fn over<O: Office>(below: O, limit: u16) -> Layer<O, Quota>
        ensures covers { Covers ⟦<Layer<O, Quota> as Office>⟧ O.Office (quota_rule limit) result below }
    {
        Layer::new(below, Quota { limit })
    }
}

impl<O: Office> Rule<O> for Quota {
    ghost own = { λ quota. quota_rule quota.limit };

    fn objection(&self, below: &O, request: Request) -> Option<Reason> {
        let (Request::Open { holder, .. }
        | Request::Delegate { holder, .. }
        | Request::Assign { holder, .. }) = request;
        (held_by(below, holder) >= usize::from(self.limit)).then_some(Reason::OverQuota)
    }
}

// How many live leases a holder has. (One loop, since `filter` with `count` is a loop within a loop, and takes half as
// much time again where a long roll is walked.)
fn held_by<O: Office>(office: &O, holder: u16) -> usize
    ensures { result ≡ count_held (O.meaning office.now).core.roll holder }
{
    let mut held = 0;
    for lease in leases(office) {
        if lease.holder == holder {
            held += 1;
        }
    }
    held
}
