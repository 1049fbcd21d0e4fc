ghost use Rattle.std.specs.Prelude.{◌≡◌};
ghost use mathlib.Core.List.{Perm};
ghost use Rattle.shares.specs.Joins.{Grouping, leaves, grouped, together, JoinsEveryWay};

use crate::share::Share;

/// What some shares come to in whichever order and grouping they are joined, or None where they can't be held at once.
/// Where there are no shares, it is the empty share.
pub fn join_all<S: Share>(shares: &[S]) -> Option<S>
    ensures is { result ≡ together S.kind shares.now }
    ensures any_way { (g : Grouping S) → Perm (leaves g) shares.now → grouped S.kind g ≡ result }
    ensures every_way { JoinsEveryWay S.kind }
{
    add_up(shares)
}

// The shares joined one after another, from the first on. (A function of its own, so that a wrong call of it is refused
// in the line that calls it.)
fn add_up<S: Share>(shares: &[S]) -> Option<S>
    ensures is { result ≡ together S.kind shares.now }
    ensures any_way { (g : Grouping S) → Perm (leaves g) shares.now → grouped S.kind g ≡ result }
    ensures every_way { JoinsEveryWay S.kind }
{
    let mut sum = S::empty();
    for share in shares {
        sum = sum.join(*share)?;
    }
    Some(sum)
}
