ghost use Rattle.std.specs.Prelude.{◌≡◌};
ghost use Rattle.book.specs.Numbers.{book_reason_number};

use thiserror::Error;

/// Why a book or an event of it was refused, with the number by which everybody knows the reason.
#[derive(Clone, Copy, PartialEq, Eq, Debug, Drop, Error)]
pub enum BookReason {
    #[error("there are fewer than 8 bytes")]
    TooShort = 41,
    #[error("there are more than 4096 events")]
    TooManyEvents = 42,
    #[error("no kind of share has this byte")]
    NoSuchKind = 43,
    #[error("byte 6 or byte 7 is not zero")]
    NotZero = 44,
    #[error("the length is not that of a book with so many events")]
    WrongLength = 45,
    #[error("no event is left")]
    NoEventLeft = 46,
    #[error("no call has this code")]
    UnknownCode = 47,
    #[error("an operand that the call doesn't use is not 0")]
    UnusedOperand = 48,
    #[error("events are left")]
    EventsLeft = 49,
}

impl BookReason {
    /// Its number.
    pub fn number(self) -> u8
        ensures { result ≡ book_reason_number self }
    {
        self as u8
    }
}
