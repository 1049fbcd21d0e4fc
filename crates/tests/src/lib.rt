//! Tests that cross crates: of shares, offices, lines, books and calls. The worked examples, which `examples` proves of
//! the definitions, run here as tests of the code. Tests have a crate of their own, since a crate's tests prove the
//! whole crate once more.
#![tactic(auto)]

#[cfg(test)]
mod book_tests;
#[cfg(test)]
mod call_tests;
#[cfg(test)]
mod line_tests;
#[cfg(test)]
mod office_tests;
#[cfg(test)]
mod share_tests;

#[cfg(test)]
use lending::Lease;
#[cfg(test)]
use shares::{LONGEST_TEXT, Printed};
#[cfg(test)]
use trees::Trees;

// A row for leases of tree shares.
#[cfg(test)]
fn free_row() -> Lease<Trees> {
    Lease::free()
}

// Whether a share has this text.
#[cfg(test)]
fn prints<S: Printed>(share: S, text: &[u8]) -> bool {
    let mut space = [0u8; LONGEST_TEXT];
    let length = share.write(&mut space);
    &space[0..length] == text
}
