//! A layer over any office: what it objects to is a rule of its own, and everything else passes down to the office
//! below and up from there.
#![tactic(auto)]

mod layer;
mod rule;

pub use layer::Layer;
pub use rule::{Request, Rule};
