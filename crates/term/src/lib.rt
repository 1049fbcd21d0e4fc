//! The rule Term: a lease is delegated for so many days at most.
#![tactic(auto)]

mod term;

pub use term::Term;
