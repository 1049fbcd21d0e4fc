// What a block keeps where each of its filled leaves is cut in two.
ghost use Rattle.std.specs.Prelude.{◌≡◌, ◌-◌, ◌/◌, ◌^◌, if◌then◌else◌, Some, None, nat_eq};
ghost use Rattle.trees.specs.Block.{Mixed, kept_of};
ghost use Rattle.trees.specs.Cells.{cut};

use super::{Block, full};

impl Block {
    // The lower halves of its filled leaves, or None where one of them is one cell.
    #[cycle(halving)]
    fn kept(self) -> Option<u64>
        ensures { result ≡ kept_of self.size self.cells }
    {
        if self.cells == 0 {
            return Some(0);
        }
        if self.is_full() {
            return self.kept_of_leaf();
        }
        self.kept_of_halves()
    }

    // The same of a mixed block, by its two halves.
    #[cycle(halving)]
    fn kept_of_halves(self) -> Option<u64>
        requires { Mixed self.size self.cells }
        ensures { result ≡ kept_of self.size self.cells }
    {
        let (lower, upper) = self.halves();
        let low = lower.kept()?;
        let high = upper.kept()?;
        Some(low | high << lower.size)
    }

    // The lower half of a filled leaf, or None where it is one cell.
    #[tactic(auto, using(crate::proofs::Sizes::half_range))]
    fn kept_of_leaf(self) -> Option<u64>
        ensures { result ≡ (if nat_eq self.size 1 then None else Some (2 ^ (self.size / 2) - 1)) }
    {
        if self.size == 1 {
            None
        } else {
            Some(full(self.size / 2))
        }
    }
}

// Each filled leaf cut in two: the cells kept and the cells lent.
pub(crate) fn cut(cells: u64) -> Option<(u64, u64)>
    ensures { result ≡ cut cells }
{
    if cells == 0 {
        return None;
    }
    let kept = Block::of_64(cells).kept()?;
    Some((kept, cells - kept))
}
