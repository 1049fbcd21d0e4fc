//! Counting shares, as in the permissions of Bornat and others: a source that has given out so many readers, or so many
//! readers.
#![tactic(auto)]

mod balance;
mod counting;
mod permission;

pub use balance::given_out_is_held;
pub use counting::Counting;
