// Reading orders.
use kinds::{KIND_NAMES, KindOfShare, NoSuchKind};
use std::fmt;
use std::num::ParseIntError;
use std::str::{FromStr, SplitWhitespace};

// What a line asks for: a resource of this kind, shared out among so many borrowers.
#[derive(Clone, Copy, Drop)]
pub(crate) struct Order {
    pub(crate) kind: KindOfShare,
    pub(crate) borrowers: u16,
}

// The error of a line that is no order. It prints what is expected.
#[derive(Clone, Copy, Debug, Drop)]
pub(crate) struct NoOrder;

impl fmt::Display for NoOrder {
    fn fmt<W: fmt::Write>(&self, f: &mut fmt::Formatter<W>) -> fmt::Result {
        write!(
            f,
            "expected a kind of share ({KIND_NAMES}) and how many borrowers (0 to 65535), as in: trees 5"
        )
    }
}

impl From<NoSuchKind> for NoOrder {
    fn from(_error: NoSuchKind) -> NoOrder {
        NoOrder
    }
}

impl From<ParseIntError> for NoOrder {
    fn from(_error: ParseIntError) -> NoOrder {
        NoOrder
    }
}

// Reads the name of a kind and a number, two words.
impl FromStr for Order {
    type Err = NoOrder;

    fn from_str(line: &str) -> Result<Order, NoOrder> {
        let mut words = line.split_whitespace();
        let order = Order {
            kind: next(&mut words)?.parse()?,
            borrowers: next(&mut words)?.parse()?,
        };
        match words.next() {
            None => Ok(order),
            Some(_) => Err(NoOrder),
        }
    }
}

// The next word.
fn next<'a>(words: &mut SplitWhitespace<'a>) -> Result<&'a str, NoOrder> {
    words.next().ok_or(NoOrder)
}
