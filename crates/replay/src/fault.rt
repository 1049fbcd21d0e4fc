ghost use Rattle.std.specs.Prelude.{◌≡◌};
ghost use Rattle.replay.specs.Faults.{fault_of_book, fault_of_office, cause_number, cause_level};

use book::BookReason;
use lending::Refusal;

/// Why an event of a book, or the end of a session, was refused: by the book, or by the office that was asked.
#[derive(Clone, Copy, PartialEq, Eq, Debug, Drop)]
pub enum Cause {
    Book(BookReason),
    Office(Refusal),
}

/// A refusal in a replay. The book's first event is 1; 0 means that the session stayed as it was.
#[derive(Clone, Copy, PartialEq, Eq, Debug, Drop)]
pub struct Fault {
    pub event: u16,
    pub cause: Cause,
}

// The book's refusal, as long as no event is named.
impl From<BookReason> for Fault {
    ghost from_gives = { λ reason fault. fault ≡ fault_of_book reason };

    fn from(reason: BookReason) -> Fault {
        Fault {
            event: 0,
            cause: Cause::Book(reason),
        }
    }
}

// The office's refusal, whole, as long as no event is named.
impl From<Refusal> for Fault {
    ghost from_gives = { λ refusal fault. fault ≡ fault_of_office refusal };

    fn from(refusal: Refusal) -> Fault {
        Fault {
            event: 0,
            cause: Cause::Office(refusal),
        }
    }
}

impl Fault {
    /// The number of its refusal.
    pub fn number(self) -> u8
        ensures { result ≡ cause_number self.cause }
    {
        match self.cause {
            Cause::Book(reason) => reason.number(),
            Cause::Office(refusal) => refusal.reason.number(),
        }
    }

    /// The level of its refusal, if an office refused.
    pub fn level(self) -> Option<u8>
        ensures { result ≡ cause_level self.cause }
    {
        match self.cause {
            Cause::Book(_) => None,
            Cause::Office(refusal) => Some(refusal.level),
        }
    }
}
