// The scripts of a folder, by its list.
ghost use Rattle.std.specs.Prelude.{◌≤◌, IfOk};

use crate::agreement::agrees;
use anyhow::anyhow;
use std::fs;

// How many scripts were played, and how many of them printed other lines than they should.
#[derive(Clone, Copy)]
pub struct Tally {
    pub played: u32,
    pub differing: u32,
}

// Plays each script that the file `list` names, and prints which of them print other lines than those that stand
// beside them.
pub fn play_listed(rt: &HostRuntime) -> anyhow::Result<Tally>
    ensures { IfOk result (λ tally. tally.differing ≤ tally.played) }
{
    let list = fs::read_to_string(rt, "list")?;
    let mut tally = Tally {
        played: 0,
        differing: 0,
    };
    for name in list.as_str().lines() {
        let script = fs::read(rt, format!(in rt.alloc(); "{name}.script")?.as_str())?;
        let expected = fs::read(rt, format!(in rt.alloc(); "{name}.expected")?.as_str())?;
        let agreed = agrees(rt.alloc(), script.as_slice(), expected.as_slice()).map_err(|_| anyhow!(
            "want of memory"
        ))?;
        tally.played = tally.played.saturating_add(1);
        tally.differing = tally.differing.saturating_add(u32::from(!agreed));
        if !agreed {
            println!(rt; "{name} differs")?;
        }
    }
    Ok(tally)
}
