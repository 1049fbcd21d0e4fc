ghost use Rattle.std.specs.Prelude.{◌≡◌};
ghost use Rattle.lending.specs.Office.{free_lease};
ghost use Rattle.lending.specs.Calls.{due_by};

use shares::Share;

/// A lease: what a holder has of a resource, from which lender, and until when. The ranges are those of a live lease.
#[derive(Clone, Copy, PartialEq, Eq, Debug)]
pub struct Lease<S> {
    /// From 1 to `MOST_NUMBERS`; calls name the lease by it.
    pub number: u16,
    /// From 1 to `HIGHEST_NAME`.
    pub resource: u16,
    /// From 1 to `HIGHEST_NAME`.
    pub holder: u16,
    /// The number of the lease from which it was lent, which is below its own. 0 is the house, which lends each
    /// resource's first lease. (A number, and no Option, since the rules of an office and the definitions say so.)
    pub lender: u16,
    /// The day on which it falls due, from 1 to `LAST_DAY`. A first lease has `NEVER_DUE`, a day that never comes (for
    /// the same reason).
    pub due: u16,
    /// Never the empty share.
    pub share: S,
}

impl<S: Share> Lease<S> {
    /// A row that no office has used yet, for the rows that a ledger is lent. Its number is no lease's.
    pub fn free() -> Lease<S>
        ensures { result ≡ free_lease S.kind }
    {
        Lease {
            number: 0,
            resource: 0,
            holder: 0,
            lender: 0,
            due: 0,
            share: S::empty(),
        }
    }

    /// Whether it falls due on that day or before it.
    pub fn falls_due_by(&self, day: u16) -> bool
        ensures { result ≡ due_by day self.now }
    {
        self.due <= day
    }
}
