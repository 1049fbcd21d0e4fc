ghost use Rattle.std.specs.Prelude.{ℕ, List};
ghost use Rattle.lending.specs.declared.lease.Lease.{Lease};
ghost use Rattle.lending.specs.Layers.{Layers};
ghost use Rattle.lending.specs.Office.{State};
ghost use Rattle.lending.specs.Outcome.Call.{open_resource, delegate, yield, merge, assign, new_day, ask_count};
ghost use Rattle.lending.specs.Outcome.Call.{ask_issued, ask_today, ask_lease_at, ask_lease};
ghost use Rattle.lending.specs.Outcome.Answer.{number};
ghost use Rattle.lending.specs.Perform.{Does};
ghost use Rattle.lending.specs.Answers.{done_or_refused, number_or_refused, lease_or_refused};
ghost use Rattle.office.specs.Lawful.{Lawful};
ghost use Rattle.office.specs.Performs.{PerformsBy};

use lending::{Lease, Refusal};
use shares::Share;

/// An office. Each call that changes it performs what the definitions say, and leaves alone what no call changes
/// (`PerformsBy`). What an office objects to may change with each granted call.
pub trait Office {
    /// The kind of share that it leases.
    type Kind: Share;

    /// What the office stands for.
    ghost meaning: { Self → State Self.Kind };

    /// What the rows hold that were lent to its ledger.
    ghost rows: { Self → List (Lease Self.Kind) };

    /// Which loan of rows that is, and nothing about leases: each mutable reference has a name of its own, and whoever
    /// lent it knows the name.
    ghost loan: { Self → ℕ };

    /// Some layers of it, the outermost first, by what each objects to by itself; it may name none. No call changes
    /// what these object to. The office may object to more, and to other things after each granted call.
    ghost layers: { Self → Layers Self.Kind };

    /// What holds of every state of an office.
    ghost lawful: { (o : Self) → Lawful (meaning o) (rows o) };

    /// How many leases are live.
    fn count(&self) -> usize
        ensures { Does Self.Kind.kind (meaning self.now) ask_count (number result) (meaning self.now) };

    /// How many numbers were issued.
    fn issued(&self) -> u16
        ensures { Does Self.Kind.kind (meaning self.now) ask_issued (number result) (meaning self.now) };

    /// Today.
    fn today(&self) -> u16
        ensures { Does Self.Kind.kind (meaning self.now) ask_today (number result) (meaning self.now) };

    /// The live lease at a position of the roll, from 0.
    fn lease_at(&self, position: usize) -> Result<Lease<Self::Kind>, Refusal>
        ensures { Does Self.Kind.kind (meaning self.now) (ask_lease_at position) (lease_or_refused result)
            (meaning self.now) };

    /// The live lease with a number.
    fn lease(&self, lease: u16) -> Result<Lease<Self::Kind>, Refusal>
        ensures { Does Self.Kind.kind (meaning self.now) (ask_lease lease) (lease_or_refused result)
            (meaning self.now) };

    /// Opens a resource: the holder gets its first lease, with the whole. Answers its number.
    fn open(&mut self, resource: u16, holder: u16) -> Result<u16, Refusal>
        ensures { PerformsBy rows loan layers Self.Kind.kind meaning (open_resource resource holder)
            (number_or_refused result) self.old self.new };

    /// Lends half of a lease's share to a holder, until a day. Answers the new lease's number.
    fn delegate(&mut self, lender: u16, holder: u16, due: u16) -> Result<u16, Refusal>
        ensures { PerformsBy rows loan layers Self.Kind.kind meaning (delegate lender holder due)
            (number_or_refused result) self.old self.new };

    /// Closes a lease, and joins its share to its lender's.
    fn yield_lease(&mut self, lease: u16) -> Result<(), Refusal>
        ensures { PerformsBy rows loan layers Self.Kind.kind meaning (yield lease) (done_or_refused result)
            self.old self.new };

    /// Closes lease b; lease a gets both shares, and lends what b lent.
    fn merge(&mut self, a: u16, b: u16) -> Result<(), Refusal>
        ensures { PerformsBy rows loan layers Self.Kind.kind meaning (merge a b) (done_or_refused result)
            self.old self.new };

    /// Changes the holder of a lease.
    fn assign(&mut self, lease: u16, holder: u16) -> Result<(), Refusal>
        ensures { PerformsBy rows loan layers Self.Kind.kind meaning (assign lease holder) (done_or_refused result)
            self.old self.new };

    /// Changes today.
    fn set_day(&mut self, day: u16) -> Result<(), Refusal>
        ensures { PerformsBy rows loan layers Self.Kind.kind meaning (new_day day) (done_or_refused result)
            self.old self.new };
}
