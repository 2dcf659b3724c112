// `costs < plan.cpl`: what is the least cost from each station of this plan to each other?
// Prints the kind and the counts, then a line for each pair of stations in row order, or the refusal.
// Rests on listings, which are proved; reading and printing are only tested.
#![tactic(auto)]

use listing::{bytes_to_read, report};
use std::io;
use std::io::Read;

fn main(rt: HostRuntime) -> io::Result<()> {
    let heap = rt.alloc();
    let mut bytes = Vec::new(heap);
    rt.stdin().take(bytes_to_read()).read_to_end(&mut bytes)?;
    rt.print(report(heap, &bytes)?)
}
