//! The tenancy book: its header, its events, and the operands of an event, read from bytes that somebody lends. Any
//! bytes are either opened, or refused by the number of the first rule that they break.
#![tactic(auto)]

mod book;
mod code;
mod event;
mod header;
mod limits;
mod reason;

pub use book::Book;
pub use code::Code;
pub use event::Event;
pub use header::Header;
pub use limits::{EVENT, HEADER, MOST_BYTES, MOST_EVENTS, RECORD, bytes_to_read};
pub use reason::BookReason;
