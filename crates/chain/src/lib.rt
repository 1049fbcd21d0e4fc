//! The rule Chain: a chain of lenders has so many leases at most.
#![tactic(auto)]

mod chain;

pub use chain::Chain;
