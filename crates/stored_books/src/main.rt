//! Prints the printouts of stored books. On standard input they stand one after another, each after its length: a
//! 16-bit number, the lower byte first.
#![tactic(auto)]

use printout::tenancy;
use std::io::{self, Read, Write};

fn main(rt: HostRuntime) -> anyhow::Result<()> {
    let mut stored = Vec::new(rt.alloc());
    rt.stdin().read_to_end(&mut stored)?;
    print_all(&rt, &stored)
}

// Prints the number of each book, from 1, and then its printout. Each book takes two bytes or more, so there are no
// more books than bytes.
fn print_all(rt: &HostRuntime, stored: &[u8]) -> anyhow::Result<()> {
    let mut unread = stored;
    for number in 1..=stored.len() {
        if unread.is_empty() {
            break;
        }
        let Some((book, after)) = first_book(unread) else {
            println!(rt; "the input ends before the end of book {number}")?;
            break;
        };
        println!(rt; "book {number}")?;
        let printout = tenancy(rt.alloc(), book)?;
        io::writer(rt).write_all(&printout)?;
        unread = after;
    }
    Ok(())
}

// The first of some stored books, and the bytes after it. None where the bytes end before that book does.
fn first_book(stored: &[u8]) -> Option<(&[u8], &[u8])> {
    let [low, high, after @ ..] = stored else {
        return None;
    };
    after.split_at_checked(usize::from(u16::from_le_bytes([*low, *high])))
}
