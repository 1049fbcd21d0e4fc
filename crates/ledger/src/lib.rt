//! The ledger: the office without layers, over rows that are lent to it, for every kind of share. `ledger` has the
//! ledger and what its calls do to its rows, and `ledger::calls` the calls.
#![tactic(auto)]

mod ledger;

pub use ledger::Ledger;
