ghost use Rattle.lending.specs.Promise.{LendingConserved, EveryCallConserves};
ghost use Rattle.lending.specs.Choice.{CallsLeaveNoChoice, ListsLeaveNoChoice};
ghost use Rattle.lending.specs.Effects.{EveryRecallTakesBack, EveryHandInTakesBack, EveryDayComes};
ghost use Rattle.lending.specs.Effects.{EveryStandingJoins, EveryStandingTells};
ghost use Rattle.lending.specs.Exact.{CallsExact};
ghost use Rattle.lending.specs.Layers.{LayerIsOffice};
ghost use Rattle.lending.specs.Play.{PlaysAreHistories};
ghost use Rattle.lending.specs.Answers.{NumbersTellReasonsApart};

use shares::Share;

/// States that nobody who lends through an office of this kind of share gets back more or less than went out.
pub fn lending_is_conserved<S: Share>()
    /// After every list of calls to an office that was set up empty, the promise holds.
    ensures always { LendingConserved S.kind }
    /// However a state was reached, one call more keeps the promise.
    ensures each { EveryCallConserves S.kind }
    /// A recall gives the lender exactly what the lease was lent, and touches nobody else's lease.
    ensures recalls { EveryRecallTakesBack S.kind }
    /// So does the hand-in of a slip for a live lease.
    ensures hand_ins { EveryHandInTakesBack S.kind }
    /// A granted day leaves no lease due by it, and gives each lender what its leases that fell due were lent.
    ensures days { EveryDayComes S.kind }
    /// A holder whose standing is the whole may write: in an open resource, exactly if nobody else has a lease of it.
    ensures standings { EveryStandingTells S.kind }
    /// A holder's shares of a resource do join to the standing that is answered.
    ensures joins { EveryStandingJoins S.kind }
{}

/// States that calls leave no choice: what a call may come to is settled.
pub fn calls_leave_no_choice<S: Share>()
    /// A call to a state has one answer and leaves one state; only the objections after a granted call may differ.
    ensures calls { CallsLeaveNoChoice S.kind }
    /// A list of calls has one history and one state, where objections follow from layers.
    ensures lists { ListsLeaveNoChoice S.kind }
{}

/// States what the definitions of the calls rest on, of every state that calls reach: lenders are live, each join
/// that a call makes is defined, and a day is refused for its number alone.
pub fn calls_are_exact<S: Share>()
    ensures { CallsExact S.kind }
{}

/// States that a layer over an office is an office.
pub fn layer_is_an_office<S: Share>()
    ensures { LayerIsOffice S.kind }
{}

/// States that what is played through the definitions, as worked examples are, is a list of calls as the promise
/// means.
pub fn plays_are_histories<S: Share>()
    ensures { PlaysAreHistories S.kind }
{}

/// States that no two reasons for a refusal have one number.
pub fn numbers_tell_reasons_apart()
    ensures { NumbersTellReasonsApart }
{}
