ghost use Rattle.trees.specs.Cells.{tree, text_of_share};
ghost use Rattle.trees.specs.Texts.{text_ascii, text_on_a_line};
ghost use Rattle.trees.specs.Faithful;
ghost use Rattle.trees.specs.Faithful.{tells};

use crate::block::write_cells;
use crate::trees::Trees;
use shares::{LONGEST_TEXT, PlainText, Printed};

impl Printed for Trees {
    ghost text = { text_of_share };

    ghost short = { Faithful.short };

    ghost on_a_line = { λ a. text_on_a_line (tree a) };

    ghost exact = { tells };

    fn write(self, space: &mut [u8; LONGEST_TEXT]) -> usize {
        write_cells(self.cells, space)
    }
}

impl PlainText for Trees {
    ghost ascii = { λ a. text_ascii (tree a) };
}
