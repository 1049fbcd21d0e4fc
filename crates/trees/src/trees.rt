ghost use Rattle.std.specs.Prelude.{◌^◌, ◌<◌};

pub mod kind;
pub mod print;

/// A set of the cells 0 to 63: cell i is in it where bit i of `cells` is 1.
#[derive(Clone, Copy, PartialEq, Eq)]
pub struct Trees {
    cells: u64,
    ghost fits: { cells < 2 ^ 64 },
}
