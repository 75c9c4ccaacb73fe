// Reads a net stream and steps from standard input and prints what is left: a thin program over the library.
#![tactic(auto)]

use report::{MOST_INPUT, print, report};
use std::io::Read;

fn run(rt: &HostRuntime) -> anyhow::Result<()> {
    let heap = rt.alloc();
    let mut input = Vec::new(heap);
    // One byte more than the longest input, so that a longer one is seen to be long.
    let mut source = rt.stdin().take(u64::from(MOST_INPUT) + 1);
    source.read_to_end(&mut input)?;
    let lines = report(heap, &input)?;
    rt.print(print(heap, &lines)?)?;
    Ok(())
}

fn main(rt: HostRuntime) -> anyhow::Result<()> {
    run(&rt)
}
