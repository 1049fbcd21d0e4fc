ghost use Rattle.std.specs.Prelude.{◌≡◌, ℕ, ◌≤◌, ◌↔◌, List, length};
ghost use Rattle.shares.specs.Text.{in_front, NoLineBreak};
ghost use Rattle.shares.specs.Text.{longest_text};

use crate::share::Share;

/// The most bytes that the text of a share takes.
pub const LONGEST_TEXT: usize = 190;

/// A kind of share that also has a text.
pub trait Printed: Share {
    /// The bytes of a share's text.
    ghost text: { Self → List ℕ };

    /// Writes the text at the front of a space, where there is always room for it, and answers its length. The bytes
    /// after it stay as they are. It takes a space and makes no `String`, since an office has no heap.
    fn write(self, space: &mut [u8; LONGEST_TEXT]) -> usize
        ensures length { result ≡ length (text self) }
        ensures bytes { space.new ≡ in_front (text self) space.old };

    ghost short: { (a : Self) → length (text a) ≤ longest_text };

    ghost on_a_line: { NoLineBreak text };

    /// Two shares are equal exactly when their texts are.
    ghost exact: { (a b : Self) → (text a ≡ text b) ↔ (a ≡ b) };
}
