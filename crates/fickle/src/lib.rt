//! An office whose objections flip at each granted call. They follow from no layers, and it is an office all the same:
//! what is promised of every office is promised of it.
#![tactic(auto)]

mod fickle;
mod working;

pub use fickle::Fickle;
pub use working::{Answers, work, work_fickle};
