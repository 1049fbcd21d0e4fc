ghost use Rattle.std.specs.Prelude.{◌≡◌, false, MatchResult};
ghost use Rattle.lending.specs.Office.{SetUp};
ghost use Rattle.lending.specs.Office.Request.{opening};
ghost use Rattle.lending.specs.Outcome.Call.{open_resource, delegate, yield, merge, assign, new_day};
ghost use Rattle.lending.specs.Answers.{reason_number, done_or_refused, number_or_refused};
ghost use Rattle.fickle.specs.Calls.{FicklePerforms, fickle_meaning};
ghost use Rattle.fickle.specs.Objects.{fickle_objects, flip, fickle_state};

use lending::{Lease, Reason, Refusal};
use office::Office;

/// An office over another, with an objection of its own that no roll and no day tells: each granted call closes it to
/// opens, or lets them through again.
#[derive(Drop)]
pub struct Fickle<O> {
    below: O,
    closed: bool,
}

impl<O: Office> Fickle<O> {
    /// The fickle office over another. It begins by letting opens through.
    pub fn over(below: O) -> Fickle<O>
        ensures stands { ⟦<Fickle<O> as Office>⟧.meaning result ≡ fickle_state false (O.meaning below) }
        ensures set_up { SetUp (O.meaning below) → SetUp (⟦<Fickle<O> as Office>⟧.meaning result) }
        ensures rows { ⟦<Fickle<O> as Office>⟧.rows result ≡ O.rows below }
        ensures loan { ⟦<Fickle<O> as Office>⟧.loan result ≡ O.loan below }
        ensures layers { ⟦<Fickle<O> as Office>⟧.layers result ≡ O.layers below }
    {
        Fickle {
            below,
            closed: false,
        }
    }

    // Refuses an open while it is closed.
    fn allow(&self, resource: u16, holder: u16) -> Result<(), Refusal>
        ensures { let s = O.meaning self.now.below in let mine = fickle_objects self.now.closed s.core.roll s.core.today
            (opening resource holder) in MatchResult result (λ x. mine ≡ None)
            (λ refusal. (mine ≡ Some (reason_number refusal.reason)) × (refusal.level ≡ 0)) }
    {
        if self.closed {
            return Err(Reason::OverQuota.into());
        }
        Ok(())
    }

    // Flips after a granted call.
    fn turn(&mut self, granted: bool)
        ensures below { self.new.below ≡ self.old.below }
        ensures turns { self.new.closed ≡ flip granted self.old.closed }
        ensures same { granted ≡ false → self.new ≡ self.old }
    {
        if granted {
            self.closed = !self.closed;
        }
    }
}

impl<O: Office> Office for Fickle<O> {
    ghost use Rattle.fickle.specs.Lawful.{fickle_lawful};

    type Kind = O::Kind;

    ghost meaning = { fickle_meaning O.Office };

    ghost rows = { λ fickle. O.rows fickle.below };

    ghost loan = { λ fickle. O.loan fickle.below };

    ghost layers = { λ fickle. O.layers fickle.below };

    ghost lawful = { fickle_lawful O.meaning O.rows O.lawful };

    fn count(&self) -> usize {
        self.below.count()
    }

    fn issued(&self) -> u16 {
        self.below.issued()
    }

    fn today(&self) -> u16 {
        self.below.today()
    }

    fn lease_at(&self, position: usize) -> Result<Lease<O::Kind>, Refusal> {
        self.below.lease_at(position).map_err(Refusal::raised)
    }

    fn lease(&self, lease: u16) -> Result<Lease<O::Kind>, Refusal> {
        self.below.lease(lease).map_err(Refusal::raised)
    }

    #[tactic(auto, using(crate::proofs::Turning::opened))]
    fn open(&mut self, resource: u16, holder: u16) -> Result<u16, Refusal>
        ensures { FicklePerforms O.Office O.Kind.kind (open_resource resource holder) (number_or_refused result)
            self.old self.new }
    {
        self.allow(resource, holder)?;
        let answer = self.below.open(resource, holder).map_err(Refusal::raised);
        self.turn(answer.is_ok());
        answer
    }

    #[tactic(auto, using(crate::proofs::Turning::delegated))]
    fn delegate(&mut self, lender: u16, holder: u16, due: u16) -> Result<u16, Refusal>
        ensures { FicklePerforms O.Office O.Kind.kind (delegate lender holder due) (number_or_refused result)
            self.old self.new }
    {
        let answer = self
            .below
            .delegate(lender, holder, due)
            .map_err(Refusal::raised);
        self.turn(answer.is_ok());
        answer
    }

    #[tactic(auto, using(crate::proofs::Turning::yielded))]
    fn yield_lease(&mut self, lease: u16) -> Result<(), Refusal>
        ensures { FicklePerforms O.Office O.Kind.kind (yield lease) (done_or_refused result) self.old self.new }
    {
        let answer = self.below.yield_lease(lease).map_err(Refusal::raised);
        self.turn(answer.is_ok());
        answer
    }

    #[tactic(auto, using(crate::proofs::Turning::merged))]
    fn merge(&mut self, a: u16, b: u16) -> Result<(), Refusal>
        ensures { FicklePerforms O.Office O.Kind.kind (merge a b) (done_or_refused result) self.old self.new }
    {
        let answer = self.below.merge(a, b).map_err(Refusal::raised);
        self.turn(answer.is_ok());
        answer
    }

    #[tactic(auto, using(crate::proofs::Turning::assigned))]
    fn assign(&mut self, lease: u16, holder: u16) -> Result<(), Refusal>
        ensures { FicklePerforms O.Office O.Kind.kind (assign lease holder) (done_or_refused result) self.old self.new }
    {
        let answer = self.below.assign(lease, holder).map_err(Refusal::raised);
        self.turn(answer.is_ok());
        answer
    }

    #[tactic(auto, using(crate::proofs::Turning::day_set))]
    fn set_day(&mut self, day: u16) -> Result<(), Refusal>
        ensures { FicklePerforms O.Office O.Kind.kind (new_day day) (done_or_refused result) self.old self.new }
    {
        let answer = self.below.set_day(day).map_err(Refusal::raised);
        self.turn(answer.is_ok());
        answer
    }
}
