use crate::{free_row, prints};
use calls::{Call, Tallies, do_job, make, make_all};
use desk::{Slip, assign, lease_at, may_write, set_day, standing, yield_lease};
use fickle::{Fickle, work, work_fickle};
use ledger::Ledger;
use lender::lend_rows;
use lending::{Lease, Refusal};
use office::Office;
use pile::house_pile;
use shares::Printed;
use std::process::Abort;

// The number and the level of a refusal.
fn refusal<T: Drop>(answer: Result<T, Refusal>) -> Option<(u8, u8)> {
    answer
        .err()
        .map(|refusal| (refusal.reason.number(), refusal.level))
}

// Calls as values.
fn open(resource: u16, holder: u16) -> Call {
    Call::Open { resource, holder }
}

fn delegate(lender: u16, holder: u16, due: u16) -> Call {
    Call::Delegate {
        lender,
        holder,
        due,
    }
}

fn merge(a: u16, b: u16) -> Call {
    Call::Merge { a, b }
}

fn recall(lease: u16) -> Call {
    Call::Recall { lease }
}

fn day(day: u16) -> Call {
    Call::Day { day }
}

// Whether a position of the roll has a lease with this number and this text of its share.
fn stands<S: Printed, O: Office<Kind = S>>(
    office: &O,
    position: usize,
    number: u16,
    text: &[u8],
) -> bool {
    lease_at(office, position).is_ok_and(|lease| lease.number == number
        && prints(lease.share, text))
}

// Calls to a pile of three layers: the worked book, and that today can't be set past the day of a live lease.
fn ten_calls<S: Printed, O: Office<Kind = S> + Drop>(rt: &impl Abort, below: O) {
    let mut office = house_pile(below, 64, 30, 2);
    assert_eq!(rt; desk::open(&mut office, 7, 1), Ok(1));
    assert_eq!(rt; desk::delegate(&mut office, 1, 2, 20), Ok(2));
    assert_eq!(rt; desk::delegate(&mut office, 2, 3, 10), Ok(3));
    assert_eq!(rt;
        refusal(make(&mut office, delegate(3, 4, 5))),
        Some((23, 2))
    );
    assert_eq!(rt; refusal(yield_lease(&mut office, 2)), Some((9, 3)));
    assert_eq!(rt; refusal(set_day(&mut office, 10)), Some((14, 3)));
    let lapsed = make_all(&mut office, &[day(10)]);
    assert_eq!(rt; lapsed.lapsed, 1);
    assert!(rt; assign(&mut office, 2, 1).is_ok());
    assert_eq!(rt;
        refusal(make(&mut office, delegate(1, 5, 41))),
        Some((22, 1))
    );
    assert_eq!(rt; desk::delegate(&mut office, 1, 5, 40), Ok(4));
    let recalled = make_all(&mut office, &[recall(2)]);
    assert_eq!(rt; recalled.recalled, 1);
    assert!(rt; stands(&office, 0, 1, b"((10)1)"));
    assert!(rt; stands(&office, 1, 4, b"((01)0)"));
}

#[test]
fn the_worked_calls_come_out(rt: HostRuntime) {
    let mut rows = [free_row(); 8];
    ten_calls(&rt, Ledger::new(&mut rows));
    assert_eq!(rt; rows[0].number, 1);
    assert_eq!(rt; rows[1].number, 4);
}

// Two leases of one holder are merged, and what both lent comes back to the one that stays.
fn merge_and_give_back<S: Printed, O: Office<Kind = S> + Drop>(rt: &impl Abort, mut office: O) {
    let lent = [
        open(7, 1),
        delegate(1, 2, 20),
        delegate(1, 2, 20),
        delegate(2, 3, 10),
        delegate(3, 4, 10),
    ];
    let _ = make_all(&mut office, &lent);
    let merged = make_all(&mut office, &[merge(2, 3)]);
    assert_eq!(rt; merged.merged, 1);
    assert_eq!(rt; refusal(yield_lease(&mut office, 2)), Some((9, 0)));
    assert!(rt; yield_lease(&mut office, 5).is_ok());
    assert_eq!(rt; refusal(yield_lease(&mut office, 2)), Some((9, 0)));
    assert!(rt; yield_lease(&mut office, 4).is_ok());
    assert!(rt; stands(&office, 1, 2, b"((01)1)"));
    assert!(rt; yield_lease(&mut office, 2).is_ok());
    assert!(rt; stands(&office, 0, 1, b"1"));
}

#[test]
fn merged_leases_come_back_whole(rt: HostRuntime) {
    let mut rows = [free_row(); 8];
    merge_and_give_back(&rt, Ledger::new(&mut rows));
}

// The editor, holder 1, lends two shares to holder 2, who lends on from the second, and one to transcriber 4. The two
// are merged, and the lease that has both is recalled. The editor may not write before the transcriber's share is back
// too.
fn merge_and_recall<S: Printed, O: Office<Kind = S> + Drop>(rt: &impl Abort, mut office: O) {
    let lent = [
        open(7, 1),
        delegate(1, 2, 20),
        delegate(1, 2, 20),
        delegate(1, 4, 30),
        delegate(3, 3, 10),
    ];
    let _ = make_all(&mut office, &lent);
    let closed = make_all(&mut office, &[merge(2, 3), recall(2)]);
    assert_eq!(rt;
        closed,
        Tallies {
            yielded: 0,
            merged: 1,
            recalled: 2,
            lapsed: 0
        }
    );
    assert!(rt; stands(&office, 0, 1, b"(((10)1)1)"));
    assert!(rt; !may_write(&office, 7, 1));
    assert!(rt; !may_write(&office, 7, 4));
    assert_eq!(rt; Slip::draw(4).hand_in(&mut office), 1);
    assert_eq!(rt; Slip::draw(4).hand_in(&mut office), 0);
    assert!(rt; stands(&office, 0, 1, b"1"));
    assert!(rt; may_write(&office, 7, 1));
}

#[test]
fn the_editor_is_no_sole_holder_while_a_share_is_out(rt: HostRuntime) {
    let mut rows = [free_row(); 8];
    merge_and_recall(&rt, Ledger::new(&mut rows));
}

// A day closes what falls due by it, with all that is under it, and a refused recall or day closes nothing.
fn days_go_by<S: Printed, O: Office<Kind = S> + Drop>(rt: &impl Abort, mut office: O) {
    let lent = [
        open(7, 1),
        delegate(1, 2, 20),
        delegate(2, 3, 10),
        delegate(1, 3, 30),
        day(9),
    ];
    assert_eq!(rt; make_all(&mut office, &lent), Tallies::default());
    assert_eq!(rt; refusal(make(&mut office, day(8))), Some((13, 0)));
    assert_eq!(rt; refusal(make(&mut office, day(10000))), Some((13, 0)));
    assert_eq!(rt; refusal(make(&mut office, recall(5))), Some((6, 0)));
    assert_eq!(rt; make_all(&mut office, &[day(20)]).lapsed, 2);
    assert!(rt; stands(&office, 0, 1, b"((10)1)"));
    assert!(rt; stands(&office, 1, 4, b"((01)0)"));
    assert!(rt; prints(standing(&office, 7, 3), b"((01)0)"));
    assert!(rt; prints(standing(&office, 7, 2), b"0"));
    assert_eq!(rt; make_all(&mut office, &[day(9999), recall(1)]).recalled, 1);
}

#[test]
fn a_lease_falls_due_on_its_day(rt: HostRuntime) {
    let lease = Lease {
        due: 20,
        ..free_row()
    };
    assert!(rt; !lease.falls_due_by(19));
    assert!(rt; lease.falls_due_by(20));
    assert!(rt; lease.falls_due_by(21));
}

#[test]
fn leases_lapse(rt: HostRuntime) {
    let mut rows = [free_row(); 8];
    days_go_by(&rt, Ledger::new(&mut rows));
}

#[test]
fn no_row_is_free(rt: HostRuntime) {
    let mut rows = [free_row(); 1];
    let mut office = Ledger::new(&mut rows);
    assert_eq!(rt; desk::open(&mut office, 7, 1), Ok(1));
    assert_eq!(rt; refusal(desk::open(&mut office, 8, 1)), Some((5, 0)));
    assert!(rt; yield_lease(&mut office, 1).is_ok());
    assert_eq!(rt; desk::open(&mut office, 8, 1), Ok(2));
    let back = office.into_rows();
    assert_eq!(rt; back.len(), 1);
    assert_eq!(rt; back[0].number, 2);
}

#[test]
fn rows_come_back_from_under_three_layers(rt: HostRuntime) {
    let mut rows = [free_row(); 8];
    let ledger = Ledger::new(&mut rows);
    let mut office = house_pile(ledger, 64, 30, 2);
    let _ = make_all(&mut office, &[open(7, 1), delegate(1, 2, 20)]);
    let back = office.into_below().into_below().into_below().into_rows();
    assert_eq!(rt; back.len(), 8);
    assert_eq!(rt; back[0].number, 1);
    assert_eq!(rt; back[1].lender, 1);
}

#[test]
fn a_job_stops_at_a_refusal_and_hands_its_slip_in(rt: HostRuntime) {
    let mut rows = [free_row(); 8];
    let mut office = Ledger::new(&mut rows);
    let _ = make_all(&mut office, &[open(7, 1), delegate(1, 2, 20)]);
    let calls = [delegate(2, 3, 10), delegate(2, 3, 40), recall(1)];
    let job = do_job(&mut office, 2, &calls);
    assert_eq!(rt; job.made, 2);
    assert_eq!(rt; job.refusal.map(|refusal| refusal.reason.number()), Some(7));
    assert_eq!(rt; job.tallies, Tallies::default());
    assert_eq!(rt; job.closed, 2);
}

#[test]
fn objections_may_flip_at_each_granted_call(rt: HostRuntime) {
    let mut rows = [free_row(); 8];
    let mut office = Fickle::over(Ledger::new(&mut rows));
    assert_eq!(rt; desk::open(&mut office, 1, 1), Ok(1));
    assert_eq!(rt; refusal(desk::open(&mut office, 2, 1)), Some((21, 0)));
    assert_eq!(rt; refusal(yield_lease(&mut office, 9)), Some((6, 1)));
    assert_eq!(rt; refusal(desk::open(&mut office, 2, 1)), Some((21, 0)));
    assert_eq!(rt; desk::delegate(&mut office, 1, 2, 20), Ok(2));
    assert_eq!(rt; desk::open(&mut office, 2, 1), Ok(3));
    assert_eq!(rt; desk::recall(&mut office, 1), Ok(2));
    let calls = [
        open(4, 1),
        recall(3),
        open(5, 1),
        open(6, 1),
        delegate(4, 2, 20),
        open(6, 1),
    ];
    assert_eq!(rt; make_all(&mut office, &calls).recalled, 1);
    assert!(rt; stands(&office, 0, 4, b"(10)"));
    assert!(rt; stands(&office, 1, 5, b"(01)"));
    assert!(rt; stands(&office, 2, 6, b"1"));
    assert_eq!(rt; desk::count(&office), 3);
}

#[test]
fn a_fickle_office_is_put_to_work_as_any_other(rt: HostRuntime) {
    let mut rows = [free_row(); 8];
    let calls = [open(4, 1), open(5, 1), recall(2)];
    let answers = work_fickle(&mut rows, 7, 1, 1, &calls);
    assert_eq!(rt; answers.opened, Ok(1));
    assert_eq!(rt; answers.recalled, Ok(1));
    assert_eq!(rt; answers.closed.recalled, 1);
    let mut ledger = Ledger::new(&mut rows);
    assert_eq!(rt; work(&mut ledger, 7, 1, 1, &calls), answers);
}

#[test]
fn a_lender_finds_the_roll_in_its_rows(rt: HostRuntime) {
    let mut rows = [free_row(); 8];
    let calls = [
        open(7, 1),
        delegate(1, 2, 20),
        delegate(1, 3, 40),
        delegate(2, 3, 10),
        open(8, 2),
        open(9, 2),
        open(9, 4),
        recall(2),
    ];
    let closed = lend_rows(&mut rows, 2, 30, 1, &calls);
    assert_eq!(rt; closed.recalled, 1);
    assert_eq!(rt; rows[0].number, 1);
    assert_eq!(rt; rows[0].resource, 7);
    assert!(rt; prints(rows[0].share, b"1"));
    assert_eq!(rt; rows[1].number, 3);
    assert_eq!(rt; rows[1].resource, 8);
    assert_eq!(rt; rows[2].number, 4);
    assert_eq!(rt; rows[2].holder, 4);
}
