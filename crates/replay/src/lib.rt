//! Replaying a tenancy book over any office: a session, which does one event of the book at a time and counts what it
//! closes, and a whole replay. Each step and each replay carries the lending promise as the calls of `desk` do.
#![tactic(auto)]

mod event;
mod fault;
mod session;
mod whole;

pub use fault::{Cause, Fault};
pub use session::{Finished, Reading};
pub use whole::replay;
