//! A round: a whole resource is lent to borrowers in turn, each of whom gets half of what the house still has, and then
//! every share comes back. It shows of any kind of share that nothing is lost on the way.
#![tactic(auto)]

mod loan;
mod round;

pub use loan::{Loan, Round, SharedOut};
pub use round::lend_and_return;
