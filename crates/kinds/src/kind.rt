// All that is said of each kind of share stands in this file and in specs/Kinds.antt. A new kind is a variant, a name,
// and a line in each `match` here.
ghost use Rattle.std.specs.Prelude.{◌≡◌, Some, IfSome};
ghost use Rattle.kinds.specs.Kinds.{kind_name, kind_byte, kind_of_byte, Named};

use std::fmt;
use std::str::FromStr;
use thiserror::Error;

/// The kinds of share.
#[derive(Clone, Copy, PartialEq, Eq, Debug, Drop)]
pub enum KindOfShare {
    Trees,
    Counting,
}

/// Their names, for a sentence.
pub const KIND_NAMES: &str = "trees or counting";

impl KindOfShare {
    /// The name of a kind.
    pub fn name(self) -> &'static str
        ensures { result.now ≡ kind_name self }
    {
        match self {
            KindOfShare::Trees => "trees",
            KindOfShare::Counting => "counting",
        }
    }

    /// The kind that a byte of a book stands for, if it stands for one.
    pub fn of_byte(byte: u8) -> Option<KindOfShare>
        ensures is { result ≡ kind_of_byte byte }
        ensures byte { IfSome result (λ kind. kind_byte kind ≡ byte) }
    {
        match byte {
            1 => Some(KindOfShare::Trees),
            2 => Some(KindOfShare::Counting),
            _ => None,
        }
    }
}

// The kind with a name, if there is one.
impl FromStr for KindOfShare {
    type Err = NoSuchKind;

    ghost from_str_gives = { Named };

    fn from_str(name: &str) -> Result<KindOfShare, NoSuchKind> {
        match name {
            "trees" => Ok(KindOfShare::Trees),
            "counting" => Ok(KindOfShare::Counting),
            _ => Err(NoSuchKind),
        }
    }
}

/// Calls a function that is generic in the kind of share, at the kind that a value names. A caller brings in all of
/// this crate. It is a macro, since a closure, a `dyn` or a function pointer has one type.
#[macro_export]
macro_rules! of_kind {
    ($kind:expr, $call:ident($($x:expr),*)) => {
        match $kind {
            KindOfShare::Trees => $call::<Trees>($($x),*),
            KindOfShare::Counting => $call::<Counting>($($x),*),
        }
    };
}

/// The error of a name that no kind has.
#[derive(Clone, Copy, PartialEq, Eq, Debug, Drop, Error)]
#[error("no kind of share has this name")]
pub struct NoSuchKind;

// A kind prints as its name.
impl fmt::Display for KindOfShare {
    ghost output = { λ kind. Some (kind_name kind) };

    fn fmt<W: fmt::Write>(&self, f: &mut fmt::Formatter<W>) -> fmt::Result {
        f.write_str(self.name())
    }
}
