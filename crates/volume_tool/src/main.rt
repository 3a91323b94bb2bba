// The volume tool: `volume help` lists its commands.
#![tactic(auto)]

use anyhow::anyhow;
use std::env;
use volume_files::obey;

fn main(rt: HostRuntime) -> anyhow::Result<()> {
    let words: Vec<String> = env::args(&rt)?.skip(1).collect(rt.alloc())?;
    if obey(&rt, words.as_slice())? {
        Ok(())
    } else {
        Err(anyhow!("refused"))
    }
}
