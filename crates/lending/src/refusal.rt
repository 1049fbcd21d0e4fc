ghost use Rattle.std.specs.Prelude.{◌≡◌};
ghost use Rattle.lending.specs.Answers.{reason_number, refused_here, raised_refusal};

use thiserror::Error;

/// Why a call was refused, with the number by which everybody knows the reason: 1 to 15 are every office's, 21 to 23
/// are the layers'.
#[derive(Clone, Copy, PartialEq, Eq, Debug, Drop, Error)]
pub enum Reason {
    #[error("the resource is not from 1 to 999")]
    ResourceOutOfRange = 1,
    #[error("the holder is not from 1 to 999")]
    HolderOutOfRange = 2,
    #[error("the resource is open")]
    ResourceIsOpen = 3,
    #[error("all 60000 numbers are issued")]
    NumbersUsedUp = 4,
    #[error("no row is free")]
    NoRowFree = 5,
    #[error("the lease is not live")]
    NotLive = 6,
    #[error("the due day is not after today, or is too late")]
    DueDay = 7,
    #[error("the share doesn't halve")]
    DoesNotHalve = 8,
    #[error("a live lease is under it")]
    LeaseUnderIt = 9,
    #[error("lease a is not below lease b")]
    WrongOrder = 10,
    #[error("lenders, holders or due days differ, or the house is the lender")]
    NotAlike = 11,
    #[error("the lease has that holder already")]
    SameHolder = 12,
    #[error("the day is before today or after day 9999")]
    DayOutOfRange = 13,
    #[error("a live lease falls due by that day")]
    LeaseFallsDue = 14,
    #[error("there is no such position")]
    NoSuchPosition = 15,
    #[error("the holder has too many leases")]
    OverQuota = 21,
    #[error("the term is too long")]
    OverTerm = 22,
    #[error("the chain of lenders is too long")]
    ChainTooLong = 23,
}

impl Reason {
    /// Its number, from 1 to 23.
    pub fn number(self) -> u8
        ensures { result ≡ reason_number self }
    {
        self as u8
    }
}

/// A refusal, and how many offices have passed it up since.
#[derive(Clone, Copy, PartialEq, Eq, Debug, Drop)]
pub struct Refusal {
    pub reason: Reason,
    /// 0 is the office called; each office that passes the refusal up adds 1, but none is above 255.
    pub level: u8,
}

// A refusal of the office called.
impl From<Reason> for Refusal {
    ghost from_gives = { λ reason refusal. refusal ≡ refused_here reason };

    fn from(reason: Reason) -> Refusal {
        Refusal { reason, level: 0 }
    }
}

impl Refusal {
    /// The refusal as the next office passes it up. Level 255 stays, since nobody piles more than 255 layers.
    pub fn raised(self) -> Refusal
        ensures { result ≡ raised_refusal self }
    {
        Refusal {
            reason: self.reason,
            level: self.level.saturating_add(1),
        }
    }
}
