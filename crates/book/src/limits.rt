ghost use Rattle.std.specs.Prelude.{◌≡◌};
ghost use Rattle.book.specs.Books.{Enough};

/// A book has at most so many events.
pub const MOST_EVENTS: u16 = 4096;

/// The bytes of a book's header.
pub const HEADER: usize = 8;

/// The bytes of an event's record: three operands of two bytes.
pub const RECORD: usize = 6;

/// The bytes of an event: its code, and its record.
pub const EVENT: usize = 1 + RECORD;

/// The bytes of a book with as many events as it can have.
pub const MOST_BYTES: usize = HEADER + EVENT * MOST_EVENTS as usize;

/// How many of an input's first bytes are enough to tell what opening all of it says: one more than a book can have, so
/// that a longer input is seen to be too long.
#[tactic(auto, using(crate::proofs::Reading::enough))]
pub fn bytes_to_read() -> u64
    ensures is { result ≡ 28681 }
    ensures enough { Enough result }
{
    MOST_BYTES as u64 + 1
}
