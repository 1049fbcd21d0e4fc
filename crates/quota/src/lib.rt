//! The rule Quota: a holder has so many leases at most.
#![tactic(auto)]

mod quota;

pub use quota::Quota;
