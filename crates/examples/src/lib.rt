//! Worked examples, proved of the definitions as one property. The crate `tests` runs them as tests of the code.
#![tactic(auto)]

mod worked;

pub use worked::worked_examples_hold;
