//! What every office is, of whichever make: the trait that the ledger and the layers over it implement, a narrower one
//! for offices whose objections follow from their layers, and an office's live leases one by one.
#![tactic(auto)]

mod live;
mod office;
mod piled;

pub use live::{LiveLeases, leases};
pub use office::Office;
pub use piled::Piled;
