// Jobs: calls that are made until one is refused, with a slip beside the office.
ghost use Rattle.std.specs.Prelude.{◌≡◌, true, length, MatchResult, Some, None};
ghost use Rattle.lending.specs.Idle.{idle};
ghost use Rattle.lending.specs.Outcome.Call.{hand_in};
ghost use Rattle.lending.specs.Perform.{perform};
ghost use Rattle.lending.specs.Promise.{LendingConserved};
ghost use Rattle.office.specs.Calls.{Keeps};
ghost use Rattle.calls.specs.Jobs.{Until, JobDone};
ghost use Rattle.calls.specs.Quiet.{AllIdle};

use crate::call::Call;
use crate::list::Tallies;
use crate::values::make;
use desk::Slip;
use lending::{Refusal, lending_is_conserved};
use office::Office;

/// What came of a job.
#[derive(Clone, Copy, PartialEq, Eq, Debug, Drop)]
pub struct Job {
    /// how many of its calls were made: the last of them was refused, or all were made
    pub made: usize,
    pub refusal: Option<Refusal>,
    /// what those calls closed
    pub tallies: Tallies,
    /// how many leases the hand-in closed
    pub closed: usize,
}

// Where the calls of a job were stopped.
#[derive(Drop)]
struct Stopped {
    made: usize,
    refusal: Refusal,
    tallies: Tallies,
}

/// Draws a slip for a lease, makes some calls until one is refused, and hands the slip in, whether or not one was.
#[tactic(auto, using(crate::proofs::Jobs::job_done))]
pub fn do_job<O: Office>(office: &mut O, lease: u16, calls: &[Call]) -> Job
    ensures done { JobDone O.Kind.kind O.Office office.old lease calls.now result office.new }
    ensures idle { AllIdle O.Kind.kind (O.meaning office.old) calls.now
        → idle (perform O.Kind.kind (O.meaning office.old) (hand_in lease)) ≡ true → office.new ≡ office.old }
    ensures keeps { Keeps O.Office office.old office.new }
    ensures always { LendingConserved O.Kind.kind }
{
    let slip = Slip::draw(lease);
    match make_until_refused(office, calls) {
        Ok(tallies) => {
            let closed = slip.hand_in(office);
            Job {
                made: calls.len(),
                refusal: None,
                tallies,
                closed,
            }
        }
        Err(stopped) => {
            let closed = slip.hand_in(office);
            Job {
                made: stopped.made,
                refusal: Some(stopped.refusal),
                tallies: stopped.tallies,
                closed,
            }
        }
    }
}

// Makes some calls until one is refused. (A function of its own, so that a wrong call of it is refused in the line that
// calls it, and not in the proof of the loop.)
fn make_until_refused<O: Office>(office: &mut O, calls: &[Call]) -> Result<Tallies, Stopped>
    ensures until { MatchResult result (λ tallies. Until O.Kind.kind O.Office office.old calls.now (length calls.now)
        None tallies office.new) (λ stopped. Until O.Kind.kind O.Office office.old calls.now stopped.made
        (Some stopped.refusal) stopped.tallies office.new) }
    ensures idle { AllIdle O.Kind.kind (O.meaning office.old) calls.now → office.new ≡ office.old }
    ensures keeps { Keeps O.Office office.old office.new }
    ensures always { LendingConserved O.Kind.kind }
{
    lending_is_conserved::<O::Kind>();
    let mut tallies = Tallies::default();
    let mut made = 0;
    for call in calls {
        made += 1;
        match make(office, *call) {
            Ok(answer) => tallies = tallies.counted(*call, Ok(answer)).unwrap(),
            Err(refusal) => {
                return Err(Stopped {
                    made,
                    refusal,
                    tallies,
                });
            }
        }
    }
    Ok(tallies)
}
