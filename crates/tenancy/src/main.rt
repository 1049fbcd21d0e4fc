//! Replays the tenancy book on standard input, and prints its printout.
#![tactic(auto)]

use book::bytes_to_read;
use printout::tenancy;
use std::io::{self, Read, Write};

fn main(rt: HostRuntime) -> anyhow::Result<()> {
    let mut book = Vec::new(rt.alloc());
    rt.stdin().take(bytes_to_read()).read_to_end(&mut book)?;
    let printout = tenancy(rt.alloc(), &book)?;
    io::writer(&rt).write_all(&printout)?;
    Ok(())
}
