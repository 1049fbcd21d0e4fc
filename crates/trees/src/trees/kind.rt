ghost use Rattle.std.specs.Prelude.{◌≡◌, refl};
ghost use Rattle.trees.specs.Cells.{trees_of_cells, trees_kind};
ghost use Rattle.trees.specs.KindLaws.{trees_laws};

use crate::block::cut;
use crate::trees::Trees;
use shares::Share;

impl Share for Trees {
    ghost kind = { trees_kind };

    ghost equality = { λ a b. refl };

    ghost laws = { trees_laws };

    fn empty() -> Trees {
        of_cells(0)
    }

    fn whole() -> Trees {
        of_cells(u64::MAX)
    }

    fn join(self, other: Trees) -> Option<Trees> {
        let apart = self.cells & other.cells == 0;
        apart.then(|| of_cells(self.cells | other.cells))
    }

    fn halve(self) -> Option<(Trees, Trees)> {
        let (kept, lent) = cut(self.cells)?;
        Some((of_cells(kept), of_cells(lent)))
    }
}

// The share with these cells.
fn of_cells(cells: u64) -> Trees
    ensures { result ≡ trees_of_cells cells }
{
    Trees { cells }
}
