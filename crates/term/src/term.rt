ghost use Rattle.layer.specs.Covers.{Covers};
ghost use Rattle.term.specs.Means.{term_rule};

use layer::{Layer, Request, Rule};
use lending::Reason;
use office::Office;

/// A layer with this rule objects where a lease is delegated for more than `days` days.
#[derive(Clone, Copy, PartialEq, Eq, Debug, Drop)]
pub struct Term {
    days: u16,
}

impl Term {
    /// The layer with this rule over an office. It says by the definition of this rule what the layer stands for, which
    /// `Layer::new` can say of no rule in particular.
    pub fn over<O: Office>(below: O, days: u16) -> Layer<O, Term>
        ensures covers { Covers ⟦<Layer<O, Term> as Office>⟧ O.Office (term_rule days) result below }
    {
        Layer::new(below, Term { days })
    }
}

impl<O: Office> Rule<O> for Term {
    ghost own = { λ term. term_rule term.days };

    fn objection(&self, below: &O, request: Request) -> Option<Reason> {
        let Request::Delegate { due, .. } = request else {
            return None;
        };
        let last = u32::from(below.today()) + u32::from(self.days);
        (u32::from(due) > last).then_some(Reason::OverTerm)
    }
}
