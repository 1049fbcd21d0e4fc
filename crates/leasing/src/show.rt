// Printing answers and the roll.
use calls::{Answer, Call, Tallies};
use desk::{count, issued, leases, today};
use lending::{Lease, Refusal};
use office::Office;
use shares::{PlainText, Text};
use std::fmt;

// Some calls, on one line.
pub(crate) fn print_calls(rt: &HostRuntime, calls: &[Call]) -> anyhow::Result<()> {
    for (position, call) in calls.iter().enumerate() {
        let before = if position == 0 { "" } else { "; " };
        print!(rt; "{before}{call}")?;
    }
    println!(rt)?;
    Ok(())
}

// The answer to a call.
pub(crate) fn print_answer<S: PlainText>(
    rt: &HostRuntime,
    call: Call,
    answer: Result<Answer<S>, Refusal>,
) -> anyhow::Result<()> {
    match answer {
        Ok(Answer::Done) => println!(rt; "  granted")?,
        Ok(Answer::Number(number)) => match call {
            Call::Open { .. } | Call::Delegate { .. } => println!(rt; "  granted, lease {number}")?,
            Call::Recall { .. } | Call::Day { .. } | Call::HandIn { .. } => {
                println!(rt; "  granted, {number} closed")?
            }
            _ => println!(rt; "  {number}")?,
        },
        Ok(Answer::Share(share)) => {
            let text = Text(share);
            println!(rt; "  share {text}")?;
        }
        Ok(Answer::Lease(lease)) => {
            let entry = Entry(lease);
            println!(rt; "  {entry}")?;
        }
        Err(refusal) => print_refusal(rt, refusal)?,
    }
    Ok(())
}

// A refusal.
pub(crate) fn print_refusal(rt: &HostRuntime, refusal: Refusal) -> anyhow::Result<()> {
    let Refusal { reason, level } = refusal;
    let number = reason.number();
    println!(rt; "  refused {number} at level {level}: {reason}")?;
    Ok(())
}

// What some calls closed.
pub(crate) fn print_tallies(rt: &HostRuntime, tallies: Tallies) -> anyhow::Result<()> {
    let Tallies {
        yielded,
        merged,
        recalled,
        lapsed,
    } = tallies;
    println!(rt;
        "  closed: {yielded} yielded, {merged} merged, {recalled} recalled, {lapsed} lapsed"
    )?;
    Ok(())
}

// The roll of an office.
pub(crate) fn print_roll<S: PlainText, O: Office<Kind = S>>(
    rt: &HostRuntime,
    office: &O,
) -> anyhow::Result<()> {
    let day = today(office);
    let numbers = issued(office);
    let live = count(office);
    println!(rt; "  today is day {day}, {numbers} issued, {live} live")?;
    for lease in leases(office) {
        let entry = Entry(lease);
        println!(rt; "    {entry}")?;
    }
    Ok(())
}

// A lease as it prints.
#[derive(Drop)]
struct Entry<S>(Lease<S>);

impl<S: PlainText> fmt::Display for Entry<S> {
    fn fmt<W: fmt::Write>(&self, f: &mut fmt::Formatter<W>) -> fmt::Result {
        let Lease {
            number,
            resource,
            holder,
            lender,
            due,
            share,
        } = self.0;
        let text = Text(share);
        write!(
            f,
            "lease {number}: resource {resource}, holder {holder}, lent by "
        )?;
        if lender == 0 {
            write!(f, "the house")?;
        } else {
            write!(f, "lease {lender} until day {due}")?;
        }
        write!(f, ", share {text}")
    }
}
