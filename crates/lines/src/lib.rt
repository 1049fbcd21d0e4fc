//! The lines of a printout: of refused events, of live leases, and of the totals. A line call is handed a space, writes
//! its line at the front of it, and answers how many bytes that are. The contract of each says:
//! - `writes`: what it answers, a refusal by its number and level, and what it leaves in the space (a refused call
//!   leaves it as it was);
//! - `short`: no such line is longer than `LONGEST_LINE`;
//! - of a lease's line also `letters`: its letter tells whether the holder may write, by the lending promise, which it
//!   carries too (`always`).
#![tactic(auto)]

mod line;
mod reason;

pub use line::LONGEST_LINE;
pub use line::leases::lease_line;
pub use line::refusals::refusal_line;
pub use line::totals::{Totals, total_line};
pub use reason::LineReason;
