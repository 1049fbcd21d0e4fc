ghost use Rattle.std.specs.Prelude.{◌≡◌, OnOk, map, false};
ghost use Rattle.std.specs.List.{filter};
ghost use Rattle.lending.specs.Calls.{bad_day, due_by};
ghost use Rattle.lending.specs.Effects.{DayComes};
ghost use Rattle.lending.specs.Outcome.Answer.{number};
ghost use Rattle.lending.specs.Outcome.Call.{day as next_day};
ghost use Rattle.lending.specs.Promise.{LendingConserved};
ghost use Rattle.lending.specs.Answers.{number_or_refused};
ghost use Rattle.office.specs.Calls.{Performs, Conserves};

use crate::sweep::{Numbers, yield_down};
use lending::{LAST_DAY, Reason, Refusal, lending_is_conserved};
use office::{Office, leases};

/// Closes every lease that falls due by a day, then sets the day, and answers how many it closed.
pub fn day<O: Office>(office: &mut O, day: u16) -> Result<usize, Refusal>
    ensures performs { Performs O.Kind.kind O.Office (next_day day) (number_or_refused result) office.old office.new }
    ensures comes { OnOk result (DayComes O.Kind.kind (O.meaning office.old) day (O.meaning office.new)) }
    ensures conserved { Conserves O.Kind.kind O.Office (next_day day) (number_or_refused result) office.old office.new }
    ensures always { LendingConserved O.Kind.kind }
{
    lending_is_conserved::<O::Kind>();
    if day < office.today() || day > LAST_DAY {
        return Err(Reason::DayOutOfRange.into());
    }
    Ok(move_to(office, day))
}

// The same where the day is neither before today nor after the last.
#[tactic(auto, using(crate::proofs::Closing::day_came))]
fn move_to<O: Office>(office: &mut O, day: u16) -> usize
    requires { bad_day (O.meaning office.old) day ≡ false }
    ensures performs { Performs O.Kind.kind O.Office (next_day day) (number result) office.old office.new }
{
    let numbers = due_of(office, day);
    yield_down(office, numbers.as_slice());
    // no live lease is due by the day any more, so that it is granted
    let _ = office.set_day(day);
    numbers.len()
}

// The numbers of the live leases that fall due by a day.
fn due_of<O: Office>(office: &O, day: u16) -> Numbers
    ensures { result.items ≡ map (λ l. l.number) (filter (due_by day) (O.meaning office.now).core.roll) }
{
    let mut numbers = Numbers::new();
    for lease in leases(office) {
        if lease.falls_due_by(day) {
            numbers.push(lease.number);
        }
    }
    numbers
}
