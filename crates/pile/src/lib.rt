//! The pile of layers that the house's offices have: Quota on Term on Chain, over any office.
#![tactic(auto)]

mod pile;

pub use pile::house_pile;
