//! Takes calls to an office, a line each, and prints each call, its answer and the roll after it.
#![tactic(auto)]

mod answer;
mod read;
mod show;

use crate::answer::{next_list, serve};
use crate::read::{Line, Unreadable, read_line};
use calls::Call;
use kinds::{of_kind, *};
use std::io::ErrorKind;
use std::slice::Iter;

fn main(rt: HostRuntime) -> anyhow::Result<()> {
    answer_all(&rt)
}

// Answers each line of standard input: from each line that sets up an office to the next, the calls to that office.
fn answer_all(rt: &HostRuntime) -> anyhow::Result<()> {
    let (lines, lists) = read_all(rt)?;
    if lines.is_empty() {
        println!(rt; "{Unreadable}")?;
    }
    let mut lists = lists.iter();
    for part in lines.chunk_by(|_, line| !matches!(line, Line::Office(_))) {
        match part {
            [Line::Office(office), calls @ ..] => {
                of_kind!(office.kind, serve(rt, *office, calls, &mut lists))?;
            }
            _ => answer_with_no_office(rt, part, &mut lists)?,
        }
    }
    Ok(())
}

// Answers lines before which no office is set up. Nobody makes the calls of their lists, which are passed over.
fn answer_with_no_office(
    rt: &HostRuntime,
    lines: &[Line],
    lists: &mut Iter<'_, Vec<Call>>,
) -> anyhow::Result<()> {
    for line in lines {
        if matches!(line, Line::List | Line::Job { .. }) {
            let _ = next_list(lists);
        }
        println!(rt; "{Unreadable}")?;
    }
    Ok(())
}

// The lines of standard input, as far as they can be read, and the lists of calls that they ask for, in their order.
fn read_all(rt: &HostRuntime) -> anyhow::Result<(Vec<Line>, Vec<Vec<Call>>)> {
    let mut lines = Vec::new(rt.alloc());
    let mut lists = Vec::new(rt.alloc());
    for line in rt.lines(rt.alloc()) {
        match line {
            Ok(line) => lines.push(read_line(rt.alloc(), line.as_str(), &mut lists)?)?,
            Err(error) if error.kind() == ErrorKind::InvalidData => lines.push(Line::Unreadable)?,
            Err(error) => return Err(error.into()),
        }
    }
    Ok((lines, lists))
}
