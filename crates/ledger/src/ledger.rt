// A ledger over rows: how it is set up, what is asked of its roll, and what granted calls change in it.
mod calls;

ghost use Rattle.std.specs.Prelude.{◌≡◌, ◌≤◌, min, length, take};
ghost use Rattle.lending.specs.Limits.{last_day, last_number, most_rows};
ghost use Rattle.lending.specs.Orderly.{Orderly};
ghost use Rattle.lending.specs.Roll.{relend};

use lending::{Lease, MOST_ROWS, NEVER_DUE, join_or_keep};
use shares::Share;

/// One ledger over rows that are lent to it, for every kind of share. It uses the first 1,024 rows, or all if fewer,
/// and keeps the roll in the first of them: a count beside the rows, and no Vec, since an office has no heap.
#[derive(Drop)]
pub struct Ledger<'a, S> {
    rows: &'a mut [Lease<S>],
    // how many leases are live: the first rows are the roll
    count: usize,
    // how many numbers were issued
    issued: u16,
    today: u16,
    ghost fits: { count ≤ min most_rows (length rows.now) },
    ghost numbers: { issued ≤ last_number },
    ghost days: { today ≤ last_day },
    ghost orderly: { ∥ Orderly (take count rows.now) issued ∥₁ },
}

impl<'a, S: Share> Ledger<'a, S> {
    ghost use Rattle.std.specs.Prelude.{◌+◌, ◌<◌, ◌++◌, [], ◌∷◌, true, false, Some, IfSome};
    ghost use Rattle.std.specs.List.{list_any};
    ghost use Rattle.lending.specs.Limits.{within_range};
    ghost use Rattle.lending.specs.Office.{SetUp, new_ledger, issue, with_roll};
    ghost use Rattle.lending.specs.Roll.{find, is_open, lends, change, close, with_holder};
    ghost use Rattle.lending.specs.Calls.{rows_full, first_lease, after_delegate, after_yield, after_merge};
    ghost use Rattle.lending.specs.Calls.{bad_due_day, due_by, unlike};
    ghost use Rattle.ledger.specs.Rows.{At, Looked};
    ghost use Rattle.ledger.specs.Means.{means, rows_of, loan_of, Stands};

    /// A ledger over these rows, set up empty: no leases, nothing issued, and today is day 0.
    pub fn new(rows: &'a mut [Lease<S>]) -> Ledger<'a, S>
        ensures stands { means result ≡ new_ledger (min most_rows (length rows.old)) }
        ensures set_up { SetUp (means result) }
        ensures rows { rows_of result ≡ rows.old }
        ensures loan { loan_of result ≡ rows.entry.ghost_name }
    {
        Ledger {
            rows,
            count: 0,
            issued: 0,
            today: 0,
        }
    }

    /// Ends the ledger and gives its rows back, as they are: the roll stands in the first of them.
    pub fn into_rows(self) -> &'a mut [Lease<S>]
        ensures rows { result.now ≡ rows_of self.entry }
        ensures loan { result.ghost_name ≡ loan_of self.entry }
        ensures roll { take (length (means self.entry).core.roll) result.now ≡ (means self.entry).core.roll }
    {
        let Ledger { rows, .. } = self;
        rows
    }

    // The roll.
    fn roll(&self) -> &[Lease<S>]
        ensures { result.now ≡ (means self.now).core.roll }
    {
        &self.rows[..self.count]
    }

    // The place of the live lease with a number.
    fn place(&self, number: u16) -> Option<usize>
        ensures { Looked number (means self.now).core.roll result }
    {
        self.roll()
            .binary_search_by_key(&number, |lease| lease.number)
            .ok()
    }

    // The live lease with a number.
    fn find(&self, number: u16) -> Option<Lease<S>>
        ensures is { result ≡ find (means self.now).core.roll number }
        ensures named { IfSome result (λ lease. lease.number ≡ number) }
    {
        let place = self.place(number)?;
        Some(self.roll()[place])
    }

    // The live lease at a position of the roll.
    fn at(&self, position: usize) -> Option<Lease<S>>
        ensures { At (means self.now).core.roll position result }
    {
        self.roll().get(position).copied()
    }

    // Whether a resource has a live lease.
    fn is_open(&self, resource: u16) -> bool
        ensures { result ≡ is_open (means self.now).core.roll resource }
    {
        self.roll().iter().any(|lease| lease.resource == resource)
    }

    // Whether a live lease falls due by a day.
    fn falls_due(&self, day: u16) -> bool
        ensures { result ≡ list_any (due_by day) (means self.now).core.roll }
    {
        self.roll().iter().any(|lease| lease.falls_due_by(day))
    }

    // Whether a live lease has this one for its lender. Its number is higher, so that it stands further on.
    fn lends(&self, number: u16) -> bool
        ensures { result ≡ lends (means self.now).core.roll number }
    {
        let roll = self.roll();
        let next = roll.partition_point(|lease| lease.number <= number);
        roll[next..].iter().any(|lease| lease.lender == number)
    }

    // Whether the live leases fill the rows.
    fn full(&self) -> bool
        ensures { result ≡ rows_full (means self.now) }
    {
        self.count == self.rows.len().min(MOST_ROWS)
    }

    // Issues the next number to a lease, which then stands last. Answers the number.
    fn issue(&mut self, lease: Lease<S>) -> u16
        requires row { rows_full (means self.old) ≡ false }
        requires number { self.old.issued < last_number }
        requires orderly { ∥ Orderly ((means self.old).core.roll ++ (lease ∷ [])) (self.old.issued + 1) ∥₁ }
        ensures number { result ≡ self.old.issued + 1 }
        ensures stands { Stands self.new self.old (issue lease (means self.old)).core }
    {
        self.rows[self.count] = lease;
        self.count += 1;
        self.issued += 1;
        self.issued
    }

    // Writes a lease over the live one with its number. (A closure that says what becomes of the lease has a longer
    // contract, and its proof didn't close.)
    fn rewrite(&mut self, lease: Lease<S>)
        requires { ∥ Orderly (change lease.number (λ _. lease) (means self.old).core.roll) self.old.issued ∥₁ }
        ensures { Stands self.new self.old (with_roll (change lease.number (λ _. lease) (means self.old).core.roll)
            (means self.old)).core }
    {
        if let Some(place) = self.place(lease.number) {
            self.rows[place] = lease;
        }
    }

    // Takes a lease out of the roll.
    fn close(&mut self, number: u16)
        ensures { Stands self.new self.old (with_roll (close number (means self.old).core.roll) (means self.old)).core }
    {
        if let Some(place) = self.place(number) {
            let end = self.count;
            self.count = end - 1;
            self.rows.copy_within(place + 1..end, place);
        }
    }

    // What calls do where they are granted. What each asks has been checked before; that a lease is live here is a fact
    // of lease and ledger together, which no type of the lease could keep while the ledger changes.

    // Issues the next number to a first lease, with the whole.
    fn first(&mut self, resource: u16, holder: u16) -> u16
        requires resource { within_range resource ≡ true }
        requires holder { within_range holder ≡ true }
        requires number { self.old.issued < last_number }
        requires row { rows_full (means self.old) ≡ false }
        ensures number { result ≡ self.old.issued + 1 }
        ensures stands { Stands self.new self.old (issue (first_lease S.kind (self.old.issued + 1) resource holder)
            (means self.old)).core }
    {
        self.issue(Lease {
            number: self.issued + 1,
            resource,
            holder,
            lender: 0,
            due: NEVER_DUE,
            share: S::whole(),
        })
    }

    // Issues the next number to a lease of what this one lends, and leaves it what it keeps.
    fn lend(&mut self, lender: Lease<S>, holder: u16, due: u16, kept: S, lent: S) -> u16
        requires live { find (means self.old).core.roll lender.number ≡ Some lender }
        requires holder { within_range holder ≡ true }
        requires due { bad_due_day (means self.old) lender due ≡ false }
        requires number { self.old.issued < last_number }
        requires row { rows_full (means self.old) ≡ false }
        ensures number { result ≡ self.old.issued + 1 }
        ensures stands { Stands self.new self.old (after_delegate (means self.old) lender holder due kept lent).core }
    {
        self.rewrite(Lease {
            share: kept,
            ..lender
        });
        self.issue(Lease {
            number: self.issued + 1,
            resource: lender.resource,
            holder,
            lender: lender.number,
            due,
            share: lent,
        })
    }

    // Closes a lease, and joins its share to its lender's.
    fn take_back(&mut self, closed: Lease<S>)
        requires { find (means self.old).core.roll closed.number ≡ Some closed }
        ensures { Stands self.new self.old (after_yield S.kind (means self.old) closed).core }
    {
        self.close(closed.number);
        if let Some(lender) = self.find(closed.lender) {
            let share = join_or_keep(lender.share, closed.share);
            self.rewrite(Lease { share, ..lender });
        }
    }

    // Closes lease b; lease a gets both shares and lends what b lent.
    fn unite(&mut self, a: Lease<S>, b: Lease<S>)
        requires a { find (means self.old).core.roll a.number ≡ Some a }
        requires b { find (means self.old).core.roll b.number ≡ Some b }
        requires order { a.number < b.number }
        requires alike { unlike a b ≡ false }
        ensures { Stands self.new self.old (after_merge S.kind (means self.old) a b).core }
    {
        let share = join_or_keep(a.share, b.share);
        self.close(b.number);
        self.rewrite(Lease { share, ..a });
        relend(&mut self.rows[..self.count], a.number, b.number);
    }

    // Gives a lease to another holder.
    fn hand_over(&mut self, lease: Lease<S>, holder: u16)
        requires live { find (means self.old).core.roll lease.number ≡ Some lease }
        requires holder { within_range holder ≡ true }
        ensures { Stands self.new self.old (with_roll (change lease.number (with_holder holder)
            (means self.old).core.roll) (means self.old)).core }
    {
        self.rewrite(Lease { holder, ..lease });
    }
}

// Has lease a lend what b lent.
#[tactic(auto, using(crate::proofs::Relends::relend_hit, crate::proofs::Relends::relend_miss))]
fn relend<S: Copy>(roll: &mut [Lease<S>], a: u16, b: u16)
    ensures { roll.new ≡ relend a b roll.old }
{
    for lease in roll.iter_mut() {
        if lease.lender == b {
            lease.lender = a;
        }
    }
}
