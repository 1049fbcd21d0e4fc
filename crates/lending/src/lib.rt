//! Lending by leases: what an office stands for, what each call does to it, and the promise that nobody who lends
//! through an office gets back more or less than went out.
#![tactic(auto)]

mod join;
mod lease;
mod limits;
mod promise;
mod refusal;

pub use join::join_or_keep;
pub use lease::Lease;
pub use limits::{HIGHEST_NAME, LAST_DAY, MOST_NUMBERS, MOST_ROWS, NEVER_DUE};
pub use promise::{
    calls_are_exact, calls_leave_no_choice, layer_is_an_office, lending_is_conserved,
    numbers_tell_reasons_apart, plays_are_histories,
};
pub use refusal::{Reason, Refusal};
