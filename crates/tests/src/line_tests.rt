use crate::free_row;
use desk::{delegate, open};
use ledger::Ledger;
use lines::{LineReason, Totals, lease_line, refusal_line, total_line};
use office::Office;
use shares::Printed;
use std::process::Abort;

// Whether a line was written at the front of a space of dots, with all dots behind it left.
fn wrote(answer: Result<usize, LineReason>, space: &[u8], line: &[u8]) -> bool {
    let after = space.iter().skip(line.len());
    answer == Ok(line.len()) && space.starts_with(line) && after.copied().all(|byte| byte == b'.')
}

// Whether the line of the lease at a position is this one.
fn has_line<S: Printed, O: Office<Kind = S>>(office: &O, position: usize, line: &[u8]) -> bool {
    let mut space = [b'.'; 40];
    let answer = lease_line(office, position, &mut space);
    wrote(answer, &space, line)
}

// A first lease alone, then beside the half that it has lent.
fn lease_lines<S: Printed, O: Office<Kind = S> + Drop>(rt: &impl Abort, mut office: O) {
    assert_eq!(rt; open(&mut office, 7, 1), Ok(1));
    assert!(rt; has_line(&office, 0, b"1 7 1 0 10000 w 1\n"));
    assert_eq!(rt; delegate(&mut office, 1, 2, 20), Ok(2));
    assert!(rt; has_line(&office, 0, b"1 7 1 0 10000 r (10)\n"));
    assert!(rt; has_line(&office, 1, b"2 7 2 1 20 r (01)\n"));
    let mut short = [b'.'; 17];
    assert_eq!(rt;
        lease_line(&office, 2, &mut short),
        Err(LineReason::NoSuchPosition)
    );
    assert_eq!(rt;
        lease_line(&office, 1, &mut short),
        Err(LineReason::LineTooLong)
    );
    assert_eq!(rt; short, [b'.'; 17]);
}

#[test]
fn leases_print_a_line_each(rt: HostRuntime) {
    let mut rows = [free_row(); 8];
    lease_lines(&rt, Ledger::new(&mut rows));
}

#[test]
fn refusals_print_a_line_each(rt: HostRuntime) {
    let mut space = [b'.'; 9];
    let answer = refusal_line(4, 23, Some(2), &mut space);
    assert!(rt; wrote(answer, &space, b"! 4 23 2\n"));
    let mut space = [b'.'; 12];
    let answer = refusal_line(0, 41, None, &mut space);
    assert!(rt; wrote(answer, &space, b"! 0 41 -\n"));
    let mut short = [b'.'; 8];
    assert_eq!(rt;
        refusal_line(4, 23, Some(2), &mut short),
        Err(LineReason::LineTooLong)
    );
    assert_eq!(rt; short, [b'.'; 8]);
}

#[test]
fn totals_print_a_line(rt: HostRuntime) {
    let totals = Totals {
        issued: 4,
        live: 2,
        yielded: 0,
        merged: 0,
        recalled: 1,
        lapsed: 1,
    };
    let mut space = [b'.'; 20];
    let answer = total_line(totals, &mut space);
    assert!(rt; wrote(answer, &space, b"= 4 2 0 0 1 1\n"));
    assert_eq!(rt; total_line(totals, &mut []), Err(LineReason::LineTooLong));
}

#[test]
fn line_reasons_have_their_numbers(rt: HostRuntime) {
    assert_eq!(rt; LineReason::NoSuchPosition.number(), 15);
    assert_eq!(rt; LineReason::LineTooLong.number(), 31);
}
