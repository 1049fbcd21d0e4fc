ghost use Rattle.std.specs.Prelude.{IsAscii};

use crate::printed::Printed;

/// A printed kind whose texts are all ASCII, so that a share can be shown as a `str`.
pub trait PlainText: Printed {
    ghost ascii: { (a : Self) → IsAscii (Self.text a) };
}
