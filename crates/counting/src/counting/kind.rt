ghost use Rattle.std.specs.Prelude.{◌≡◌, true};
ghost use Rattle.counting.specs.Limits.{within};
ghost use Rattle.counting.specs.Counts.{counting_of, counting_if_within, plus, less, counting_kind};
ghost use Rattle.counting.specs.KindLaws.{counting_laws, equals};

use crate::counting::Counting;
use crate::permission::Permission;
use shares::Share;

// The most readers that a source gives out or that a share holds.
const MOST: u16 = 4095;

impl Share for Counting {
    ghost kind = { counting_kind };

    ghost equality = { λ a b. equals a.held b.held };

    ghost laws = { counting_laws };

    fn empty() -> Counting {
        of_permission(Permission::Empty)
    }

    fn whole() -> Counting {
        of_permission(Permission::Source(0))
    }

    fn join(self, other: Counting) -> Option<Counting> {
        counted(self.plus(other)?)
    }

    fn halve(self) -> Option<(Counting, Counting)> {
        let kept = counted(self.less()?)?;
        Some((kept, of_permission(Permission::Readers(1))))
    }
}

// The share with a permission.
fn of_permission(held: Permission) -> Counting
    requires { within held ≡ true }
    ensures { result ≡ counting_of held }
{
    Counting { held }
}

// The share with a permission, or None where that is beyond the limits.
fn counted(held: Permission) -> Option<Counting>
    ensures { result ≡ counting_if_within held }
{
    if within(held) {
        Some(of_permission(held))
    } else {
        None
    }
}

// Whether a permission is within the limits.
fn within(held: Permission) -> bool
    ensures { result ≡ within held }
{
    match held {
        Permission::Empty => true,
        Permission::Source(n) => n <= MOST,
        Permission::Readers(k) => 1 <= k && k <= MOST,
    }
}

impl Counting {
    // Both permissions as one: readers add up, and readers given back to a source are no longer given out.
    fn plus(self, other: Counting) -> Option<Permission>
        ensures { result ≡ plus self.held other.held }
    {
        match (self.held, other.held) {
            (Permission::Empty, held) => Some(held),
            (held, Permission::Empty) => Some(held),
            (Permission::Source(n), Permission::Readers(k)) => given_back(n, k),
            (Permission::Readers(k), Permission::Source(n)) => given_back(n, k),
            (Permission::Readers(j), Permission::Readers(k)) => Some(Permission::Readers(j + k)),
            (Permission::Source(_), Permission::Source(_)) => None,
        }
    }

    // What is kept where one reader is lent.
    fn less(self) -> Option<Permission>
        ensures { result ≡ less self.held }
    {
        match self.held {
            Permission::Empty => None,
            Permission::Source(n) => Some(Permission::Source(n + 1)),
            Permission::Readers(k) => Some(Permission::Readers(k - 1)),
        }
    }
}

// A source that has given out `n` readers, with `k` of them back.
fn given_back(n: u16, k: u16) -> Option<Permission>
    ensures { result ≡ plus (Permission.Source n) (Permission.Readers k) }
{
    n.checked_sub(k).map(Permission::Source)
}
