ghost use Rattle.std.specs.Prelude.{◌≡◌};
ghost use Rattle.lending.specs.Roll.{find, height};
ghost use Rattle.layer.specs.Covers.{Covers};
ghost use Rattle.chain.specs.Means.{lender_of_lease, chain_rule};

use layer::{Layer, Request, Rule};
use lending::Reason;
use office::Office;

/// A layer with this rule objects where a lease that has `limit` leases above it would lend.
#[derive(Clone, Copy, PartialEq, Eq, Debug, Drop)]
pub struct Chain {
    limit: u16,
}

impl Chain {
    /// The layer with this rule over an office. It says by the definition of this rule what the layer stands for, which
    /// `Layer::new` can say of no rule in particular.
    pub fn over<O: Office>(below: O, limit: u16) -> Layer<O, Chain>
        ensures covers { Covers ⟦<Layer<O, Chain> as Office>⟧ O.Office (chain_rule limit) result below }
    {
        Layer::new(below, Chain { limit })
    }
}

impl<O: Office> Rule<O> for Chain {
    ghost own = { λ chain. chain_rule chain.limit };

    fn objection(&self, below: &O, request: Request) -> Option<Reason> {
        let Request::Delegate { lender, .. } = request else {
            return None;
        };
        below.lease(lender).ok()?;
        (height_of(below, lender) >= self.limit).then_some(Reason::ChainTooLong)
    }
}

// The lender of a live lease, unless that is the house.
fn lender_of<O: Office>(office: &O, lease: u16) -> Option<u16>
    ensures { result ≡ lender_of_lease (find (O.meaning office.now).core.roll lease) }
{
    office
        .lease(lease)
        .ok()
        .map(|found| found.lender)
        .filter(|lender| *lender != 0)
}

// How many leases are above a lease. A lender's number is lower, so that the walk up ends.
fn height_of<O: Office>(office: &O, lease: u16) -> u16
    ensures { result ≡ height (O.meaning office.now).core.roll lease }
{
    let mut height = 0;
    let mut reached = lease;
    while let Some(lender) = lender_of(office, reached) {
        reached = lender;
        height += 1;
    }
    height
}
