#![tactic(auto)]

use console::programs::{ending, run_wide};
use std::io;

// Names the input, the output and the notices; `run_wide` and `ending` have the rest.
fn main(rt: HostRuntime) -> anyhow::Result<()> {
    let ended = run_wide(
        rt.alloc(),
        &mut rt.stdin(),
        &mut io::writer(&rt),
        &mut rt.stderr(),
    );
    ending(ended)?;
    Ok(())
}
