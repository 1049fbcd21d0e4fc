ghost use Rattle.std.specs.Prelude.{◌≡◌, ◌≤◌};
ghost use Rattle.book.specs.Codes.{code_of_byte, operands_used};

/// What an event asks for, by its code.
#[derive(Clone, Copy, PartialEq, Eq, Debug, Drop)]
pub enum Code {
    Open = 1,
    Delegate = 2,
    Yield = 3,
    Merge = 4,
    Assign = 5,
    Recall = 6,
    Day = 7,
}

impl Code {
    /// The code that a byte stands for, if it stands for one.
    pub fn of_byte(byte: u8) -> Option<Code>
        ensures { result ≡ code_of_byte byte }
    {
        match byte {
            1 => Some(Code::Open),
            2 => Some(Code::Delegate),
            3 => Some(Code::Yield),
            4 => Some(Code::Merge),
            5 => Some(Code::Assign),
            6 => Some(Code::Recall),
            7 => Some(Code::Day),
            _ => None,
        }
    }

    /// How many operands its call uses: the first so many of the three.
    pub fn operands_used(self) -> usize
        ensures is { result ≡ operands_used self }
        ensures most { result ≤ 3 }
    {
        match self {
            Code::Open | Code::Merge | Code::Assign => 2,
            Code::Delegate => 3,
            Code::Yield | Code::Recall | Code::Day => 1,
        }
    }
}
