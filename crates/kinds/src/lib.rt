//! The kinds of share that the house uses. This crate alone lists them: a new kind is a crate of its own and lines
//! here, in src/kind.rt and specs/Kinds.antt.
#![tactic(auto)]

mod kind;

pub use counting::Counting;
pub use kind::{KIND_NAMES, KindOfShare, NoSuchKind};
pub use trees::Trees;
