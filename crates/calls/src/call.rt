ghost use Rattle.std.specs.Prelude.{Some};
ghost use Rattle.calls.specs.Written.{call_text};

use lending::Lease;
use std::fmt;

/// A call to an office, as a value.
#[derive(Clone, Copy, PartialEq, Eq, Debug, Drop)]
pub enum Call {
    Open { resource: u16, holder: u16 },
    Delegate { lender: u16, holder: u16, due: u16 },
    Yield { lease: u16 },
    Merge { a: u16, b: u16 },
    Assign { lease: u16, holder: u16 },
    SetDay { day: u16 },
    Count,
    Issued,
    Today,
    LeaseAt { position: u16 },
    LeaseOf { number: u16 },
    Recall { lease: u16 },
    Day { day: u16 },
    Standing { resource: u16, holder: u16 },
    HandIn { lease: u16 },
}

// The call as it is written: its name and its numbers, with blanks between.
impl fmt::Display for Call {
    ghost output = { λ call. Some (call_text call) };

    fn fmt<W: fmt::Write>(&self, f: &mut fmt::Formatter<W>) -> fmt::Result {
        match *self {
            Call::Open { resource, holder } => write!(f, "open {resource} {holder}"),
            Call::Delegate {
                lender,
                holder,
                due,
            } => write!(f, "delegate {lender} {holder} {due}"),
            Call::Yield { lease } => write!(f, "yield {lease}"),
            Call::Merge { a, b } => write!(f, "merge {a} {b}"),
            Call::Assign { lease, holder } => write!(f, "assign {lease} {holder}"),
            Call::SetDay { day } => write!(f, "set_day {day}"),
            Call::Count => write!(f, "count"),
            Call::Issued => write!(f, "issued"),
            Call::Today => write!(f, "today"),
            Call::LeaseAt { position } => write!(f, "lease_at {position}"),
            Call::LeaseOf { number } => write!(f, "lease {number}"),
            Call::Recall { lease } => write!(f, "recall {lease}"),
            Call::Day { day } => write!(f, "day {day}"),
            Call::Standing { resource, holder } => write!(f, "standing {resource} {holder}"),
            Call::HandIn { lease } => write!(f, "hand_in {lease}"),
        }
    }
}

/// What an office answers to a call that it grants, or to a question.
#[derive(Clone, Copy, PartialEq, Eq, Debug, Drop)]
pub enum Answer<S> {
    Done,
    Number(usize),
    Lease(Lease<S>),
    Share(S),
}
