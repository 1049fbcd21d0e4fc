ghost use Rattle.std.specs.Prelude.{◌≡◌, [], ◌∷◌};
ghost use Rattle.shares.specs.Text.{in_front};
ghost use Rattle.counting.specs.Counts.{text_of_share};
ghost use Rattle.counting.specs.Texts;
ghost use Rattle.counting.specs.Texts.{tells};

use crate::counting::Counting;
use crate::permission::Permission;
use shares::{LONGEST_TEXT, PlainText, Printed, write_count};

impl Printed for Counting {
    ghost text = { text_of_share };

    ghost short = { λ a. Texts.short a.held a.limited };

    ghost on_a_line = { λ a. Texts.on_a_line a.held a.limited };

    ghost exact = { tells };

    fn write(self, space: &mut [u8; LONGEST_TEXT]) -> usize {
        match self.held {
            Permission::Empty => write_letter(b'e', space),
            Permission::Source(n) => write_count(b's', n, space),
            Permission::Readers(k) => write_count(b'r', k, space),
        }
    }
}

impl PlainText for Counting {
    ghost ascii = { λ a. Texts.ascii a.held a.limited };
}

// Writes a letter at the front of a space, and answers how many bytes that takes: 1.
fn write_letter(letter: u8, space: &mut [u8; LONGEST_TEXT]) -> usize
    ensures length { result ≡ 1 }
    ensures bytes { space.new ≡ in_front (letter ∷ []) space.old }
{
    space[0] = letter;
    1
}
