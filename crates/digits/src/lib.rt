//! The decimal digits of a number, kept where there is no heap. Counting shares are printed by them: the library's
//! `itoa` lends digits out of a buffer, and these are a value that can be copied and handed on.
#![tactic(auto)]

mod digits;

pub use digits::Digits;
