// Making calls, and printing what comes of them.
use crate::read::{Line, SetUp, Unreadable};
use crate::show::{print_answer, print_calls, print_refusal, print_roll, print_tallies};
use calls::{Call, Job, do_job, make, make_all};
use ledger::Ledger;
use lending::Lease;
use office::Office;
use pile::house_pile;
use shares::PlainText;
use std::slice::Iter;

// The calls of the next list. There are as many lists as lines that ask for one, so it is never missing.
pub(crate) fn next_list<'a>(lists: &mut Iter<'a, Vec<Call>>) -> &'a [Call] {
    lists.next().map_or(&[], |calls| calls.as_slice())
}

// Sets up an office, and makes the calls to it.
pub(crate) fn serve<S: PlainText>(
    rt: &HostRuntime,
    office: SetUp,
    lines: &[Line],
    lists: &mut Iter<'_, Vec<Call>>,
) -> anyhow::Result<()> {
    println!(rt; "{office}")?;
    let mut rows = vec![in rt.alloc(); Lease::<S>::free(); usize::from(office.rows)]?;
    serve_over(rt, Ledger::new(rows.as_mut_slice()), office, lines, lists)
}

// Piles the house's layers on an office, and makes the calls.
fn serve_over<S: PlainText, O: Office<Kind = S> + Drop>(
    rt: &HostRuntime,
    below: O,
    office: SetUp,
    lines: &[Line],
    lists: &mut Iter<'_, Vec<Call>>,
) -> anyhow::Result<()> {
    let mut pile = house_pile(below, office.quota, office.term, office.chain);
    for line in lines {
        match *line {
            Line::Call(call) => answer(rt, &mut pile, call)?,
            Line::List => answer_list(rt, &mut pile, next_list(lists))?,
            Line::Job { lease } => answer_job(rt, &mut pile, lease, next_list(lists))?,
            // An office begins a part of the lines, so it never stands among the calls.
            Line::Office(_) | Line::Unreadable => println!(rt; "{Unreadable}")?,
        }
    }
    Ok(())
}

// Makes a call, and prints it, its answer, and the roll after a call that may change it.
fn answer<S: PlainText, O: Office<Kind = S>>(
    rt: &HostRuntime,
    office: &mut O,
    call: Call,
) -> anyhow::Result<()> {
    println!(rt; "{call}")?;
    print_answer(rt, call, make(office, call))?;
    match call {
        Call::Count
        | Call::Issued
        | Call::Today
        | Call::LeaseAt { .. }
        | Call::LeaseOf { .. }
        | Call::Standing { .. } => Ok(()),
        _ => print_roll(rt, office),
    }
}

// Makes a list of calls, and prints them, what they closed, and the roll after them.
fn answer_list<S: PlainText, O: Office<Kind = S>>(
    rt: &HostRuntime,
    office: &mut O,
    calls: &[Call],
) -> anyhow::Result<()> {
    print_calls(rt, calls)?;
    print_tallies(rt, make_all(office, calls))?;
    print_roll(rt, office)
}

// Does a job, and prints it, how many of its calls were made, the refusal that stopped it, what the calls and the
// hand-in closed, and the roll after them.
fn answer_job<S: PlainText, O: Office<Kind = S>>(
    rt: &HostRuntime,
    office: &mut O,
    lease: u16,
    calls: &[Call],
) -> anyhow::Result<()> {
    print!(rt; "job {lease}: ")?;
    print_calls(rt, calls)?;
    let Job {
        made,
        refusal,
        tallies,
        closed,
    } = do_job(office, lease, calls);
    let all = calls.len();
    println!(rt; "  {made} of {all} calls made")?;
    if let Some(refusal) = refusal {
        print_refusal(rt, refusal)?;
    }
    print_tallies(rt, tallies)?;
    println!(rt; "  slip of lease {lease} handed in, {closed} closed")?;
    print_roll(rt, office)
}
