//! Whoever lends rows to an office finds its roll in them once the office is gone.
#![tactic(auto)]

mod lender;

pub use lender::lend_rows;
