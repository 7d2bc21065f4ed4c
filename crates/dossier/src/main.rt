#![tactic(auto)]

use console::programs::{ending, run_dossier};
use std::io;

// Names the input, the output and the notices; `run_dossier` and `ending` have the rest.
fn main(rt: HostRuntime) -> anyhow::Result<()> {
    let ended = run_dossier(&mut rt.stdin(), &mut io::writer(&rt), &mut rt.stderr());
    ending(ended)?;
    Ok(())
}
