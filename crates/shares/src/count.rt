ghost use Rattle.std.specs.Prelude.{◌≡◌, ◌∷◌, length, decimal};
ghost use Rattle.shares.specs.Text.{in_front};

use crate::printed::LONGEST_TEXT;
use digits::Digits;

/// Writes a letter and a number in decimal at the front of a space, as kinds that count print their shares. Answers how
/// many bytes that takes. The bytes after them stay as they are.
pub fn write_count(letter: u8, n: u16, space: &mut [u8; LONGEST_TEXT]) -> usize
    ensures length { result ≡ length (letter ∷ decimal n) }
    ensures bytes { space.new ≡ in_front (letter ∷ decimal n) space.old }
{
    let digits = Digits::of(u32::from(n));
    let shown = digits.as_slice();
    let end = 1 + shown.len();
    space[0] = letter;
    space[1..end].copy_from_slice(shown);
    end
}
