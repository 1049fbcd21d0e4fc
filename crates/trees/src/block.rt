// Blocks of cells.
ghost use Rattle.std.specs.Prelude.{◌≡◌, ◌-◌, ◌/◌, ◌%◌, ◌^◌, ◌<◌, ◌≤◌, ◌==◌};
ghost use Rattle.trees.specs.Cells.{span};
ghost use Rattle.trees.specs.Block.{level, Mixed};

mod keep;
mod write;

pub(crate) use keep::cut;
pub(crate) use write::write_cells;

// A block of 1, 2, 4, 8, 16, 32 or 64 cells, as the bits of a number.
#[derive(Clone, Copy)]
struct Block {
    cells: u64,
    size: u32,
    ghost sized: { size ≡ span (level size) },
    ghost fits: { cells < 2 ^ size },
}

// All cells of a block of `size` cells.
fn full(size: u32) -> u64
    requires some { 1 ≤ size }
    requires most { size ≤ 64 }
    ensures { result ≡ 2 ^ size - 1 }
{
    u64::MAX >> (64 - size)
}

impl Block {
    // The block of all 64 cells.
    fn of_64(cells: u64) -> Block
        ensures cells { result.cells ≡ cells }
        ensures size { result.size ≡ 64 }
    {
        Block { cells, size: 64 }
    }

    // Whether all its cells are filled.
    fn is_full(self) -> bool
        ensures { result ≡ (self.cells == 2 ^ self.size - 1) }
    {
        self.cells == full(self.size)
    }

    // The lower and the upper half of a mixed block.
    fn halves(self) -> (Block, Block)
        requires { Mixed self.size self.cells }
        ensures smaller { self.size / 2 < self.size }
        ensures low { result.0.cells ≡ self.cells % 2 ^ (self.size / 2) }
        ensures low_size { result.0.size ≡ self.size / 2 }
        ensures high { result.1.cells ≡ self.cells / 2 ^ (self.size / 2) }
        ensures high_size { result.1.size ≡ self.size / 2 }
    {
        let size = self.size / 2;
        let low = Block {
            cells: self.cells & full(size),
            size,
        };
        let high = Block {
            cells: self.cells >> size,
            size,
        };
        (low, high)
    }
}
