//! The calls by which programs deal with an office, any one. The contract of each says what it does:
//! - `performs`: the office has become what the definitions say, a refusal leaves the whole office as it was, and what
//!   no call changes stays; of a question `tells`;
//! - `idle`: a slip for a lease that isn't live leaves the whole office as it was;
//! - `takes_back`, `comes`, `joins`: what recalls, hand-ins, days and standings come to;
//! - `conserved`: the lending promise, whole: whatever list of calls led here from an office that was set up empty,
//!   nobody gets back more or less than went out once this call is made;
//! - `always`: so it is for every list of calls.
//!
//! `lending_is_conserved` does nothing when it runs: it brings the theorem to the contract. `conserved` and `always`
//! stand on each call, so that each carries the promise whole.
//!
//! Recall, day, standing and hand-ins stand over the office: they are made of its own calls, and refuse at level 0.
#![tactic(auto)]

mod calls;
mod days;
mod questions;
mod recalls;
mod slips;
mod standings;
mod sweep;

pub use calls::{assign, delegate, merge, open, set_day, yield_lease};
pub use days::day;
pub use questions::{count, issued, lease, lease_at, leases, today};
pub use recalls::recall;
pub use slips::Slip;
pub use standings::{may_write, standing};
