ghost use Rattle.std.specs.Prelude.{◌≡◌};
ghost use Rattle.lines.specs.Answers.{line_refusal};

use thiserror::Error;

// The level of a line call's refusal: such a call stands over an office and is none of its calls.
const LEVEL: u8 = 0;

/// Why a line call was refused.
#[derive(Clone, Copy, PartialEq, Eq, Debug, Drop, Error)]
pub enum LineReason {
    #[error("there is no such position")]
    NoSuchPosition = 15,
    #[error("the line is longer than the space")]
    LineTooLong = 31,
}

impl LineReason {
    /// Its number.
    pub fn number(self) -> u8
        ensures { result ≡ (line_refusal self).number }
    {
        self as u8
    }

    /// Its level.
    pub fn level(self) -> u8
        ensures { result ≡ (line_refusal self).level }
    {
        LEVEL
    }
}
