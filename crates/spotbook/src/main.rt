//! Reads commands from standard input and writes a reply to each.
#![tactic(auto)]

use book::{MOST_INPUT, replies};
use std::io::{Read, Write};

/// Replies to what stands on standard input, as far as it is read.
fn run(rt: &HostRuntime) -> anyhow::Result<()> {
    let heap = rt.alloc();
    let mut input = Vec::new(heap);
    rt.stdin().take(MOST_INPUT as u64).read_to_end(&mut input)?;
    // once to count the bytes of the replies, and once to write them
    let len = replies(input.as_slice(), &mut []);
    let mut out = vec![in heap; 0u8; len]?;
    replies(input.as_slice(), out.as_mut_slice());
    rt.stdout().write_all(out.as_slice())?;
    Ok(())
}

fn main(rt: HostRuntime) -> anyhow::Result<()> {
    run(&rt)
}
