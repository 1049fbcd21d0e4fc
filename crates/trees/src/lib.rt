//! Tree shares: sets of 64 cells, which join, halve and print as the binary trees of Dockins, Hobor and Appel.
#![tactic(auto)]

mod block;
mod canonical;
mod trees;

pub use canonical::are_canonical_trees;
pub use trees::Trees;
