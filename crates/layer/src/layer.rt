ghost use Rattle.std.specs.Prelude.{◌≡◌, ◌∷◌, MatchResult};
ghost use Rattle.lending.specs.Layers.{layered};
ghost use Rattle.lending.specs.Answers.{reason_number};
ghost use Rattle.layer.specs.Covers.{Covers};
ghost use Rattle.layer.specs.Parts.{office_below, rule_of};
ghost use Rattle.layer.specs.Requests.{request_meant};
ghost use Rattle.layer.specs.Lawful.{layer_lawful, layer_follows};

use crate::rule::{Request, Rule};
use lending::{Lease, Refusal};
use office::{Office, Piled};

/// An office over another, which objects by a rule.
#[derive(Drop)]
pub struct Layer<O, R> {
    below: O,
    rule: R,
}

impl<O: Office, R: Rule<O>> Layer<O, R> {
    /// The layer over an office, with its rule.
    pub fn new(below: O, rule: R) -> Layer<O, R>
        ensures covers { Covers ⟦<Layer<O, R> as Office>⟧ O.Office (R.own rule) result below }
    {
        Layer { below, rule }
    }

    /// Ends the layer and gives back the office below, as it is.
    pub fn into_below(self) -> O
    where
        R: Drop,
        ensures below { result ≡ office_below self }
        ensures covers { Covers ⟦<Layer<O, R> as Office>⟧ O.Office (R.own (rule_of self)) self result }
    {
        let Layer { below, .. } = self;
        below
    }

    // Refuses what the rule objects to.
    fn allow(&self, request: Request) -> Result<(), Refusal>
        ensures { let s = O.meaning self.now.below in let mine = (R.own self.now.rule).objects s.core.roll s.core.today
            (request_meant request) in MatchResult result (λ x. mine ≡ None)
            (λ refusal. (mine ≡ Some (reason_number refusal.reason)) × (refusal.level ≡ 0)) }
    {
        match self.rule.objection(&self.below, request) {
            Some(reason) => Err(reason.into()),
            None => Ok(()),
        }
    }
}

impl<O: Office, R: Rule<O>> Office for Layer<O, R> {
    type Kind = O::Kind;

    ghost meaning = { λ layer. layered (R.own layer.rule) (O.meaning layer.below) };

    ghost rows = { λ layer. O.rows layer.below };

    ghost loan = { λ layer. O.loan layer.below };

    ghost layers = { λ layer. R.own layer.rule ∷ O.layers layer.below };

    ghost lawful = { layer_lawful O.meaning O.rows R.own O.lawful };

    fn count(&self) -> usize {
        self.below.count()
    }

    fn issued(&self) -> u16 {
        self.below.issued()
    }

    fn today(&self) -> u16 {
        self.below.today()
    }

    fn lease_at(&self, position: usize) -> Result<Lease<O::Kind>, Refusal> {
        self.below.lease_at(position).map_err(Refusal::raised)
    }

    fn lease(&self, lease: u16) -> Result<Lease<O::Kind>, Refusal> {
        self.below.lease(lease).map_err(Refusal::raised)
    }

    #[tactic(auto, using(crate::proofs::Passing::opened))]
    fn open(&mut self, resource: u16, holder: u16) -> Result<u16, Refusal> {
        self.allow(Request::Open { resource, holder })?;
        self.below.open(resource, holder).map_err(Refusal::raised)
    }

    #[tactic(auto, using(crate::proofs::Passing::delegated))]
    fn delegate(&mut self, lender: u16, holder: u16, due: u16) -> Result<u16, Refusal> {
        self.allow(Request::Delegate {
            lender,
            holder,
            due,
        })?;
        self.below
            .delegate(lender, holder, due)
            .map_err(Refusal::raised)
    }

    fn yield_lease(&mut self, lease: u16) -> Result<(), Refusal> {
        self.below.yield_lease(lease).map_err(Refusal::raised)
    }

    #[tactic(auto, using(crate::proofs::Passing::merged))]
    fn merge(&mut self, a: u16, b: u16) -> Result<(), Refusal> {
        self.below.merge(a, b).map_err(Refusal::raised)
    }

    fn assign(&mut self, lease: u16, holder: u16) -> Result<(), Refusal> {
        self.allow(Request::Assign { lease, holder })?;
        self.below.assign(lease, holder).map_err(Refusal::raised)
    }

    fn set_day(&mut self, day: u16) -> Result<(), Refusal> {
        self.below.set_day(day).map_err(Refusal::raised)
    }
}

impl<O: Piled, R: Rule<O>> Piled for Layer<O, R> {
    ghost follow = { layer_follows O.meaning O.layers R.own O.follow };
}
