// Calls made through any office, and through a fickle one.
ghost use Rattle.std.specs.Prelude.{false, min, length, []};
ghost use Rattle.lending.specs.Limits.{most_rows};
ghost use Rattle.lending.specs.Office.{State, new_ledger};
ghost use Rattle.lending.specs.Promise.{LendingConserved};
ghost use Rattle.office.specs.Calls.{Keeps};
ghost use Rattle.calls.specs.Lists.{SomeOffice};
ghost use Rattle.fickle.specs.Objects.{fickle_state};
ghost use Rattle.fickle.specs.Works.{Worked};

use crate::fickle::Fickle;
use calls::{Call, Tallies, make_all};
use desk::{open, recall};
use ledger::Ledger;
use lending::{Lease, Refusal};
use office::Office;
use shares::Share;

/// What an office answered to an open, a recall and a list of calls.
#[derive(Clone, Copy, PartialEq, Eq, Debug, Drop)]
pub struct Answers {
    pub opened: Result<u16, Refusal>,
    pub recalled: Result<usize, Refusal>,
    pub closed: Tallies,
}

/// Opens a resource, recalls a lease and makes a list of calls, at any office.
#[tactic(auto, using(crate::proofs::Threefold::worked))]
pub fn work<O: Office>(
    office: &mut O,
    resource: u16,
    holder: u16,
    lease: u16,
    calls: &[Call],
) -> Answers
    ensures worked { Worked O.Kind.kind (SomeOffice O.Office (O.layers office.old)) (O.meaning office.old) resource
        holder lease calls.now result (O.meaning office.new) }
    ensures keeps { Keeps O.Office office.old office.new }
    ensures always { LendingConserved O.Kind.kind }
{
    let opened = open(office, resource, holder);
    let recalled = recall(office, lease);
    let closed = make_all(office, calls);
    Answers {
        opened,
        recalled,
        closed,
    }
}

/// The same at a fickle office over a new ledger. What it objects to in between follows from nothing that the
/// definitions know, so that its contract says of the last state only that there is one; a test pins when the office
/// flips.
pub fn work_fickle<'a, S: Share>(
    rows: &'a mut [Lease<S>],
    resource: u16,
    holder: u16,
    lease: u16,
    calls: &[Call],
) -> Answers
    ensures worked { (t : State S) × Worked S.kind (SomeOffice ⟦<Fickle<Ledger<'a, S>> as Office>⟧ [])
        (fickle_state false (new_ledger (min most_rows (length rows.old)))) resource holder lease calls.now result t }
    ensures always { LendingConserved S.kind }
{
    work_at_new(rows, resource, holder, lease, calls)
}

// Sets that office up. (A function of its own, since its proof is written by hand, and would be the first to refuse a
// wrong number.)
fn work_at_new<'a, S: Share>(
    rows: &'a mut [Lease<S>],
    resource: u16,
    holder: u16,
    lease: u16,
    calls: &[Call],
) -> Answers
    ensures worked { (t : State S) × Worked S.kind (SomeOffice ⟦<Fickle<Ledger<'a, S>> as Office>⟧ [])
        (fickle_state false (new_ledger (min most_rows (length rows.old)))) resource holder lease calls.now result t }
    ensures always { LendingConserved S.kind }
{
    let mut office = Fickle::over(Ledger::new(rows));
    work(&mut office, resource, holder, lease, calls)
}
