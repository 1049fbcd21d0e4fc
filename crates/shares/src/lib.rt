//! Shares: what can be lent, how a share is cut in two, and how shares come together again.
#![tactic(auto)]

mod count;
mod joins;
mod plain_text;
mod printed;
mod share;
mod text;

pub use count::write_count;
pub use joins::join_all;
pub use plain_text::PlainText;
pub use printed::{LONGEST_TEXT, Printed};
pub use share::Share;
pub use text::{Text, text_of};
