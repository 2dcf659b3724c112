// `links < plan.cpl`: is this plan file sound, and what is in it?
// Prints the kind, the counts and the links in order, or the refusal.
// Rests on accounts, which are proved; reading and printing are only tested.
#![tactic(auto)]

use account::{account, bytes_to_read};
use std::io;
use std::io::Read;

fn main(rt: HostRuntime) -> io::Result<()> {
    let heap = rt.alloc();
    let mut bytes = Vec::new(heap);
    rt.stdin().take(bytes_to_read()).read_to_end(&mut bytes)?;
    rt.print(account(heap, &bytes)?)
}
