// airbench: plays the script on standard input to a set, and prints a line for each of its lines.
#![tactic(auto)]

use anyhow::anyhow;
use player::play::play;
use std::io::{Read, Write};

fn run(rt: &HostRuntime) -> anyhow::Result<()> {
    let mut input = Vec::new(rt.alloc());
    // one byte more than a script may have tells that it is too long
    let _ = rt.stdin().take(65_537).read_to_end(&mut input)?;
    let printed = play(rt.alloc(), input.as_slice()).map_err(|_| anyhow!("want of memory"))?;
    rt.stdout().write_all(printed.as_bytes())?;
    Ok(())
}

fn main(rt: HostRuntime) -> anyhow::Result<()> {
    run(&rt)
}
