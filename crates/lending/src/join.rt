ghost use Rattle.std.specs.Prelude.{◌≡◌};
ghost use Rattle.lending.specs.Roll.{plus};

use shares::Share;

/// Both shares joined. Where they don't join, which no call of an office comes to, it is the first.
pub fn join_or_keep<S: Share>(a: S, b: S) -> S
    ensures { result ≡ plus S.kind a b }
{
    a.join(b).unwrap_or(a)
}
