// Yielding many leases, one after another.
ghost use Rattle.std.specs.Prelude.{◌≡◌, reverse};
ghost use Rattle.lending.specs.Above.{yields};
ghost use Rattle.lending.specs.Office.{State};
ghost use Rattle.lending.specs.Outcome.Answer.{done};
ghost use Rattle.lending.specs.Outcome.Outcome.{grants};
ghost use Rattle.office.specs.Calls.{Keeps};

use arrayvec::ArrayVec;
use lending::MOST_ROWS;
use office::Office;

// Numbers of leases, by rising number. They lie in the value itself, since an office has no heap.
pub(crate) type Numbers = ArrayVec<u16, MOST_ROWS>;

// Yields these leases from the last to the first. Where the definitions grant all of those yields, this leaves what
// they do.
pub(crate) fn yield_down<O: Office>(office: &mut O, numbers: &[u16])
    ensures leaves { (u : State O.Kind) → yields O.Kind.kind (O.meaning office.old) (reverse numbers.now)
        ≡ grants done u → (O.meaning office.new).core ≡ u.core }
    ensures keeps { Keeps O.Office office.old office.new }
{
    for number in numbers.iter().rev() {
        // it is granted, so that there is no refusal to pass on
        let _ = office.yield_lease(*number);
    }
}
