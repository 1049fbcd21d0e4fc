ghost use Rattle.std.specs.Prelude.{◌≡◌, IfOk, Some, vec_items};
ghost use Rattle.shares.specs.Joins.{JoinTo, together};
ghost use Rattle.rounds.specs.Loans.{SharesLent, all_shares};

use crate::loan::{Loan, Round, SharedOut};
use shares::{Share, join_all};
use std::alloc::{AllocError, Global};
use std::iter::once;

/// Plays a round with so many borrowers. Fewer are served if what the house still has doesn't halve any more. The
/// shares come back in the order in which they were lent.
pub fn lend_and_return<S: Share>(alloc: Global, borrowers: usize) -> Result<Round<S>, AllocError>
    ensures lent { IfOk result (λ x. SharesLent S.kind borrowers S.kind.whole x.out) }
    ensures joins { IfOk result (λ x. JoinTo S.kind (all_shares x.out) S.kind.whole) }
    ensures back { IfOk result (λ x. x.back ≡ S.kind.whole) }
{
    let out = lend(alloc, S::whole(), borrowers)?;
    let back = take_back(alloc, &out)?;
    Ok(Round { out, back })
}

// Lends from one share to so many borrowers, as long as what is left halves.
fn lend<S: Share>(alloc: Global, share: S, borrowers: usize) -> Result<SharedOut<S>, AllocError>
    ensures lent { IfOk result (λ out. SharesLent S.kind borrowers share out) }
    ensures joins { IfOk result (λ out. JoinTo S.kind (all_shares out) share) }
    ensures sum { IfOk result (λ out. together S.kind (all_shares out) ≡ Some share) }
{
    let mut loans = Vec::new(alloc);
    let mut left = share;
    for served in 0..borrowers {
        let Some(halves) = left.halve() else {
            break;
        };
        loans.push(Loan {
            lent: halves.1,
            kept: halves.0,
        })?;
        left = halves.0;
    }
    Ok(SharedOut { loans, left })
}

// Takes every share back, the first loan first.
fn take_back<S: Share>(alloc: Global, out: &SharedOut<S>) -> Result<S, AllocError>
    requires { together S.kind (all_shares out.now) ≡ Some S.kind.whole }
    ensures { IfOk result (λ back. back ≡ S.kind.whole) }
{
    let shares = shares_back(alloc, out)?;
    Ok(join_all(&shares).unwrap())
}

// What is left and what was handed out, in the order of the loans.
fn shares_back<S: Share>(alloc: Global, out: &SharedOut<S>) -> Result<Vec<S>, AllocError>
    ensures { IfOk result (λ shares. vec_items shares ≡ all_shares out.now) }
{
    let lent = out.loans.iter().map(|loan| loan.lent);
    once(out.left).chain(lent).collect(alloc)
}
