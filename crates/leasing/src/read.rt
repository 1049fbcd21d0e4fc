// Reading lines.
use calls::{Call, NotACall};
use kinds::{KIND_NAMES, KindOfShare, NoSuchKind};
use lending::MOST_ROWS;
use std::alloc::{AllocError, Global};
use std::fmt;
use std::num::ParseIntError;
use std::str::{FromStr, SplitWhitespace};

// An office to set up: Quota on Term on Chain on a ledger with so many rows, for a kind of share.
#[derive(Clone, Copy, Drop)]
pub(crate) struct SetUp {
    pub(crate) kind: KindOfShare,
    pub(crate) rows: u16,
    pub(crate) quota: u16,
    pub(crate) term: u16,
    pub(crate) chain: u16,
}

// The office as it is set up, with the rows that its ledger uses.
impl fmt::Display for SetUp {
    fn fmt<W: fmt::Write>(&self, f: &mut fmt::Formatter<W>) -> fmt::Result {
        let SetUp {
            kind,
            rows,
            quota,
            term,
            chain,
        } = *self;
        let used = usize::from(rows).min(MOST_ROWS);
        write!(
            f,
            "an office of {kind}, {used} rows, quota {quota}, term {term}, chain {chain}"
        )
    }
}

// What a line asks for. The calls of a list stand apart, so that a line takes as little memory as it can, and a long
// input of single calls none for lists.
#[derive(Clone, Copy, Drop)]
pub(crate) enum Line {
    Office(SetUp),
    Call(Call),
    // the next list of calls, to be made one after another
    List,
    // the next list of calls, to be made until one is refused, beside a slip for a lease
    Job { lease: u16 },
    Unreadable,
}

// Reads a line, and adds the list of calls that it asks for to those of the lines before it, if it does: calls with
// semicolons between them are a list, and behind a colon they are a job's.
pub(crate) fn read_line(
    alloc: Global,
    line: &str,
    lists: &mut Vec<Vec<Call>>,
) -> Result<Line, AllocError> {
    if let Some((slip, calls)) = line.split_once(':') {
        let (Ok(lease), Some(calls)) = (read_slip(slip), read_calls(alloc, calls)?) else {
            return Ok(Line::Unreadable);
        };
        lists.push(calls)?;
        return Ok(Line::Job { lease });
    }
    if line.contains(';') {
        let Some(calls) = read_calls(alloc, line)? else {
            return Ok(Line::Unreadable);
        };
        lists.push(calls)?;
        return Ok(Line::List);
    }
    Ok(match line.parse() {
        Ok(call) => Line::Call(call),
        Err(NotACall) => line.parse().map_or(Line::Unreadable, Line::Office),
    })
}

// Reads calls with semicolons between them, if there is nothing else.
fn read_calls(alloc: Global, text: &str) -> Result<Option<Vec<Call>>, AllocError> {
    let mut calls = Vec::new(alloc);
    for call in text.split(';') {
        match call.parse() {
            Ok(call) => calls.push(call)?,
            Err(NotACall) => return Ok(None),
        }
    }
    Ok(Some(calls))
}

// Reads the word job and the lease for which a slip is drawn.
fn read_slip(text: &str) -> Result<u16, Unreadable> {
    let mut words = text.split_whitespace();
    if next(&mut words)? != "job" {
        return Err(Unreadable);
    }
    let lease = next(&mut words)?.parse()?;
    match words.next() {
        None => Ok(lease),
        Some(_) => Err(Unreadable),
    }
}

// The error of a line that can't be read. It prints what is expected.
#[derive(Clone, Copy, Debug, Drop)]
pub(crate) struct Unreadable;

impl fmt::Display for Unreadable {
    fn fmt<W: fmt::Write>(&self, f: &mut fmt::Formatter<W>) -> fmt::Result {
        write!(
            f,
            "expected: office KIND ROWS QUOTA TERM CHAIN (KIND is {KIND_NAMES}), or a call to that office: \
             open RESOURCE HOLDER, delegate LENDER HOLDER DUE, yield LEASE, merge A B, assign LEASE HOLDER, \
             set_day DAY, recall LEASE, day DAY, hand_in LEASE, standing RESOURCE HOLDER, count, issued, today, \
             lease NUMBER, lease_at POSITION, or some of these with semicolons between them"
        )
    }
}

impl From<NoSuchKind> for Unreadable {
    fn from(_error: NoSuchKind) -> Unreadable {
        Unreadable
    }
}

impl From<ParseIntError> for Unreadable {
    fn from(_error: ParseIntError) -> Unreadable {
        Unreadable
    }
}

// Reads the word office, the name of a kind, and four numbers.
impl FromStr for SetUp {
    type Err = Unreadable;

    fn from_str(line: &str) -> Result<SetUp, Unreadable> {
        let mut words = line.split_whitespace();
        if next(&mut words)? != "office" {
            return Err(Unreadable);
        }
        let office = SetUp {
            kind: next(&mut words)?.parse()?,
            rows: next(&mut words)?.parse()?,
            quota: next(&mut words)?.parse()?,
            term: next(&mut words)?.parse()?,
            chain: next(&mut words)?.parse()?,
        };
        match words.next() {
            None => Ok(office),
            Some(_) => Err(Unreadable),
        }
    }
}

// The next word.
fn next<'a>(words: &mut SplitWhitespace<'a>) -> Result<&'a str, Unreadable> {
    words.next().ok_or(Unreadable)
}
