// Plays each script of data/ and compares what it prints with the lines that were worked out by hand.
#![tactic(auto)]

use case_player::listed::{Tally, play_listed};

fn main(rt: HostRuntime) -> anyhow::Result<()> {
    let Tally { played, differing } = play_listed(&rt)?;
    println!(rt; "{played} scripts played, {differing} differ")?;
    Ok(())
}
