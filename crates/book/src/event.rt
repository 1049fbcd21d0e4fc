ghost use Rattle.std.specs.Prelude.{◌≡◌, ◌==◌, length};
ghost use Rattle.std.specs.List.{list_all};
ghost use Rattle.book.specs.Limits.{record_size};

use crate::code::Code;
use crate::reason::BookReason;

/// An event of a book: the byte of its code, and its record, which is that very part of the book.
#[derive(Clone, Copy, Debug, Drop)]
pub struct Event<'a> {
    pub code: u8,
    /// a slice and no array, since the library doesn't say of an array that it makes of a slice where the array stands
    pub bytes: &'a [u8],
    ghost sized: { length bytes.now ≡ record_size },
}

impl Event<'_> {
    ghost use Rattle.book.specs.Events.{operands_of, code_and_operands, code_and_operands_of};

    /// The three operands of its record.
    pub fn operands(&self) -> [u16; 3]
        ensures { result ≡ operands_of self.now.bytes.now }
    {
        let [a0, a1, b0, b1, c0, c1] = self.bytes else {
            unreachable!();
        };
        [
            u16::from_le_bytes([*a0, *a1]),
            u16::from_le_bytes([*b0, *b1]),
            u16::from_le_bytes([*c0, *c1]),
        ]
    }

    /// Its code and its operands. Refused if no call has the code, or an operand that the call doesn't use is not 0.
    pub fn code_and_operands(&self) -> Result<(Code, [u16; 3]), BookReason>
        ensures { code_and_operands_of result ≡ code_and_operands self.now.code self.now.bytes.now }
    {
        let code = Code::of_byte(self.code).ok_or(BookReason::UnknownCode)?;
        let operands = self.operands();
        if are_zero(&operands[code.operands_used()..]) {
            Ok((code, operands))
        } else {
            Err(BookReason::UnusedOperand)
        }
    }
}

// Whether all of some operands are 0.
fn are_zero(operands: &[u16]) -> bool
    ensures { result ≡ list_all (λ operand. operand == 0) operands.now }
{
    operands.iter().all(|operand| *operand == 0)
}
