ghost use Rattle.std.specs.Prelude.{◌≡◌, ◌++◌, length, take};
ghost use Rattle.lending.specs.Layers.{pile};
ghost use Rattle.lending.specs.Promise.{Conserved, LendingConserved};
ghost use Rattle.office.specs.Lawful.{unused};
ghost use Rattle.calls.specs.Plays.{play_in_turn, CallsPlayed};
ghost use Rattle.pile.specs.House.{house_layers};
ghost use Rattle.lender.specs.NewOffice.{new_office, play_at_new};

use calls::{Call, Tallies, make_all};
use ledger::Ledger;
use lending::{Lease, lending_is_conserved};
use office::{Office, Piled};
use pile::house_pile;
use shares::Share;

/// Lends rows to a new office, Quota on Term on Chain on a ledger, makes a list of calls to it, and ends it. Answers
/// how many leases the calls closed. The roll then stands in the first of the rows.
pub fn lend_rows<S: Share>(
    rows: &mut [Lease<S>],
    quota: u16,
    term: u16,
    chain: u16,
    calls: &[Call],
) -> Tallies
    ensures played { CallsPlayed S.kind (house_layers quota term chain) (new_office quota term chain (length rows.old))
        calls.now result (play_at_new S.kind quota term chain (length rows.old) calls.now).1 }
    ensures roll { let t = (play_at_new S.kind quota term chain (length rows.old) calls.now).1 in take
        (length t.core.roll) rows.new ≡ t.core.roll }
    ensures unused { unused rows.new ≡ unused rows.old }
    ensures length { length rows.new ≡ length rows.old }
    ensures conserved { let p = play_at_new S.kind quota term chain (length rows.old) calls.now in Conserved S.kind p.0
        p.1 }
    ensures always { LendingConserved S.kind }
{
    lending_is_conserved::<S>();
    let (tallies, _) = make_in(rows, quota, term, chain, calls);
    tallies
}

// The calls made to a new office in these rows. Gives the very rows back, beside the tallies.
fn make_in<'a, S: Share>(
    rows: &'a mut [Lease<S>],
    quota: u16,
    term: u16,
    chain: u16,
    calls: &[Call],
) -> (Tallies, &'a mut [Lease<S>])
    ensures played { CallsPlayed S.kind (house_layers quota term chain) (new_office quota term chain (length rows.old))
        calls.now result.0 (play_at_new S.kind quota term chain (length rows.old) calls.now).1 }
    ensures roll { let t = (play_at_new S.kind quota term chain (length rows.old) calls.now).1 in take
        (length t.core.roll) result.1.now ≡ t.core.roll }
    ensures unused { unused result.1.now ≡ unused rows.old }
    ensures loan { result.1.ghost_name ≡ rows.entry.ghost_name }
{
    let (tallies, ledger) = make_over(Ledger::new(rows), quota, term, chain, calls);
    (tallies, ledger.into_rows())
}

// The calls made through the three layers over an office. Gives that office back, beside the tallies.
fn make_over<O: Piled>(below: O, quota: u16, term: u16, chain: u16, calls: &[Call]) -> (Tallies, O)
    ensures played { let ls = house_layers quota term chain in CallsPlayed O.Kind.kind (ls ++ O.layers below)
        (pile ls (O.meaning below)) calls.now result.0
        (play_in_turn O.Kind.kind (ls ++ O.layers below) (pile ls (O.meaning below)) calls.now).1 }
    ensures roll { let ls = house_layers quota term chain in (O.meaning result.1).core.roll
        ≡ (play_in_turn O.Kind.kind (ls ++ O.layers below) (pile ls (O.meaning below)) calls.now).1.core.roll }
    ensures unused { unused (O.rows result.1) ≡ unused (O.rows below) }
    ensures loan { O.loan result.1 ≡ O.loan below }
{
    let mut office = house_pile(below, quota, term, chain);
    let tallies = make_piled(&mut office, calls);
    (tallies, office.into_below().into_below().into_below())
}

// Makes the calls at an office whose objections follow from its layers, so that what they come to is worked out.
fn make_piled<O: Piled>(office: &mut O, calls: &[Call]) -> Tallies
    ensures played { CallsPlayed O.Kind.kind (O.layers office.old) (O.meaning office.old) calls.now result
        (O.meaning office.new) }
    ensures unused { unused (O.rows office.new) ≡ unused (O.rows office.old) }
    ensures loan { O.loan office.new ≡ O.loan office.old }
{
    make_all(office, calls)
}
