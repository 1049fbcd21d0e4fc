ghost use Rattle.std.specs.Prelude.{◌≡◌};
ghost use Rattle.shares.specs.Kind.{Kind, Laws};

/// A kind of share. Whoever holds a share of a resource may read it, and whoever holds the whole may write.
pub trait Share: Copy + Eq {
    /// The five operations, as the laws speak of them.
    ghost kind: { Kind Self };

    /// The share of somebody who holds nothing.
    fn empty() -> Self
        ensures { result ≡ kind.empty };

    /// All of a resource.
    fn whole() -> Self
        ensures { result ≡ kind.whole };

    /// Both shares as one, or None where they can't be held at once.
    fn join(self, other: Self) -> Option<Self>
        ensures { result ≡ kind.join self other };

    /// The half kept and the half lent, or None where this share doesn't halve.
    fn halve(self) -> Option<(Self, Self)>
        ensures { result ≡ kind.halve self };

    /// `==` is the kind's test of equality.
    ghost equality: { (a b : Self) → Self.eq a b ≡ kind.same a b };

    /// Every kind owes them.
    ghost laws: { Laws kind };
}
