//! Calls to an office as values: how they are written and read, and how they are made, one by one, a whole list, or as
//! a job with a slip beside the office; with the lending promise on each as on the calls of `desk`.
#![tactic(auto)]

mod call;
mod job;
mod list;
mod read;
mod values;

pub use call::{Answer, Call};
pub use job::{Job, do_job};
pub use list::{Tallies, make_all};
pub use read::NotACall;
pub use values::make;
