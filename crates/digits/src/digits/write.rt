ghost use Rattle.std.specs.Prelude.{◌≡◌, ◌≤◌, length, decimal};
ghost use Rattle.digits.specs.Digits.{digits_of};

use crate::digits::Digits;
use itoa::Buffer;

impl Digits {
    /// The digits of `n`, without leading zeros.
    pub fn of(n: u32) -> Digits
        ensures { digits_of result ≡ decimal n }
    {
        let mut buffer = Buffer::new();
        let text = buffer.format(n).as_bytes();
        let count = text.len();
        let mut bytes = [b'0'; 10];
        bytes[..count].copy_from_slice(text);
        Digits { bytes, count }
    }

    /// The bytes of the digits.
    pub fn as_slice(&self) -> &[u8]
        ensures is { result.now ≡ digits_of self.now }
        ensures most { length result.now ≤ 10 }
    {
        &self.bytes[0..self.count]
    }
}
