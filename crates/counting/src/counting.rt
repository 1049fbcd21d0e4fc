ghost use Rattle.std.specs.Prelude.{◌≡◌, true};
ghost use Rattle.counting.specs.Limits.{within};

use crate::permission::Permission;

pub mod kind;
pub mod print;

/// A permission within the limits.
#[derive(Clone, Copy, PartialEq, Eq)]
pub struct Counting {
    held: Permission,
    ghost limited: { within held ≡ true },
}
