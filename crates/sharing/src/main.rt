//! Shares a resource out among borrowers and takes every share back, once for each line of standard input.
#![tactic(auto)]

mod order;

use crate::order::{NoOrder, Order};
use kinds::{of_kind, *};
use rounds::{Loan, Round, SharedOut, lend_and_return};
use shares::{PlainText, Text};
use std::io::{self, ErrorKind};

fn main(rt: HostRuntime) -> anyhow::Result<()> {
    answer_all(&rt)
}

// Answers each line of standard input; an empty input gets the answer of a line that can't be read. (The lines hold the
// space that they are read into. Nothing takes them over, or the stack would have that space twice.)
fn answer_all(rt: &HostRuntime) -> anyhow::Result<()> {
    let mut lines = rt.lines(rt.alloc());
    let Some(first) = lines.next() else {
        return Ok(println!(rt; "{NoOrder}")?);
    };
    answer_line(rt, first)?;
    for line in lines.by_ref() {
        answer_line(rt, line)?;
    }
    Ok(())
}

// Answers a line that was read, whether or not it is text.
fn answer_line(rt: &HostRuntime, line: io::Result<String>) -> anyhow::Result<()> {
    match line {
        Ok(line) => answer(rt, line.as_str()),
        Err(error) if error.kind() == ErrorKind::InvalidData => Ok(println!(rt; "{NoOrder}")?),
        Err(error) => Err(error.into()),
    }
}

// Does what one line asks for, and prints what was done.
fn answer(rt: &HostRuntime, line: &str) -> anyhow::Result<()> {
    match line.parse() {
        Ok(Order { kind, borrowers }) => {
            println!(rt; "{kind}, borrowers: {borrowers}")?;
            of_kind!(kind, share_out(rt, borrowers))
        }
        Err(NoOrder) => Ok(println!(rt; "{NoOrder}")?),
    }
}

// Shares a whole resource out, takes every share back, and prints each step.
fn share_out<S: PlainText>(rt: &HostRuntime, borrowers: u16) -> anyhow::Result<()> {
    let Round { out, back } = lend_and_return::<S>(rt.alloc(), usize::from(borrowers))?;
    let SharedOut { loans, left } = out;
    print_loans(rt, &loans)?;
    if loans.len() < usize::from(borrowers) {
        let left = Text(left);
        println!(rt; "  no more loans: {left} doesn't halve any more")?;
    }
    let all = Text(back);
    if back == S::whole() {
        println!(rt; "  every share is back: {all}, the whole")?;
    } else {
        println!(rt; "  every share is back: {all}, not the whole")?;
    }
    Ok(())
}

// A line for each loan.
fn print_loans<S: PlainText>(rt: &HostRuntime, loans: &[Loan<S>]) -> anyhow::Result<()> {
    for (number, loan) in (1u64..).zip(loans) {
        let Loan { lent, kept } = *loan;
        let lent = Text(lent);
        let kept = Text(kept);
        println!(rt; "  loan {number}: lent {lent}, kept {kept}")?;
    }
    Ok(())
}
