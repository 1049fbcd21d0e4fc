ghost use Rattle.std.specs.Prelude.{◌≤◌};

mod write;

/// The digits of a number of 32 bits, in decimal. Ten suffice for each.
#[derive(Clone, Copy)]
pub struct Digits {
    bytes: [u8; 10],
    // how many of the bytes are digits of the number
    count: usize,
    ghost fits: { count ≤ 10 },
}
