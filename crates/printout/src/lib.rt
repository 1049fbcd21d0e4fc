//! The printout of a whole tenancy book: over any office whose objections follow from its layers, and over a new office
//! of the book's own kind of share.
#![tactic(auto)]

mod append;
mod books;
mod piles;

pub use books::print_book;
pub use piles::tenancy;
