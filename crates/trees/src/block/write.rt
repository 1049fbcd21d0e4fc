// The text of a block.
ghost use Rattle.std.specs.Prelude.{◌≡◌, ◌+◌, ◌≤◌, length};
ghost use Rattle.shares.specs.Text.{in_front};
ghost use Rattle.trees.specs.Block.{Mixed, text_of, placed};
ghost use Rattle.trees.specs.Cells.{tree_of};
ghost use Rattle.trees.specs.Tree.{text};

use super::Block;
use shares::LONGEST_TEXT;

impl Block {
    // Writes the text from `at` on, and answers where it ends.
    #[cycle(writing)]
    fn write(self, space: &mut [u8], at: usize) -> usize
        requires { at + length (text_of self.size self.cells) ≤ length space.old }
        ensures end { result ≡ at + length (text_of self.size self.cells) }
        ensures bytes { space.new ≡ placed space.old at (text_of self.size self.cells) }
    {
        if self.cells == 0 {
            space[at] = b'0';
            return at + 1;
        }
        if self.is_full() {
            space[at] = b'1';
            return at + 1;
        }
        self.write_pair(space, at)
    }

    // Writes a mixed block, neither empty nor full, as its two halves in brackets.
    #[cycle(writing)]
    fn write_pair(self, space: &mut [u8], at: usize) -> usize
        requires mixed { Mixed self.size self.cells }
        requires room { at + length (text_of self.size self.cells) ≤ length space.old }
        ensures end { result ≡ at + length (text_of self.size self.cells) }
        ensures bytes { space.new ≡ placed space.old at (text_of self.size self.cells) }
    {
        let (lower, upper) = self.halves();
        space[at] = b'(';
        let mid = lower.write(space, at + 1);
        let end = upper.write(space, mid);
        space[end] = b')';
        end + 1
    }
}

// Writes the text of some cells at the front of a space, and answers its length. (A function of its own, so that a
// wrong call of it is refused in the line that calls it.)
pub(crate) fn write_cells(cells: u64, space: &mut [u8; LONGEST_TEXT]) -> usize
    ensures length { result ≡ length (text (tree_of 6 cells)) }
    ensures bytes { space.new ≡ in_front (text (tree_of 6 cells)) space.old }
{
    Block::of_64(cells).write(space, 0)
}
