// A site log, run on a plan: each line of the input is a line of the output, and goes on with its answer.
//
//     make KIND STATIONS PLACES      commissions so many stations, and a list with so many places for links
//     read FILE                      commissions the stations and links of a plan file; tells its kind and counts
//     write FILE                     writes the plan's file; tells its bytes
//     lay FROM TO COST               lays a link
//     lift FROM TO                   lifts one
//     work SOURCE METHOD QUEUE       works a row; tells how many stations were taken
//     cost FROM TO                   the least cost
//     route FROM TO                  a least route, in a list with a place for each station
//     route FROM TO PLACES           in a list with so many places
//     check SOURCE COST:STATION ..   tests a supplier's row: of each station its cost and predecessor, or - for none
//     table METHOD QUEUE             works the rows that are not worked; tells each pair's least cost
//     # words                        only repeats the words
//
// A kind is sum or split, a method plain, reuse or prune, a queue heap or shelf. A cost is far, or the number that is stored. There is a
// station for each number below the number of stations; before a plan is commissioned there is none. The last line counts the answers.
// Rests on replays, plans and listings, which are proved; parsing, reading and printing are only tested.
#![tactic(auto)]

mod calls;
mod command;
mod commissioning;
mod fields;
mod files;
mod reply;
mod session;
mod stored;
mod tally;

use anyhow::Result;
use commissioning::Commissioning;
use session::Session;
use std::alloc::{AllocError, Global};
use std::io::Read;

// The lines of a log. A byte 10 ends a line; the last line may lack it.
fn lines(alloc: Global, log: &[u8]) -> Result<Vec<&[u8]>, AllocError> {
    let mut lines: Vec<&[u8]> = log.split(|byte| *byte == b'\n').collect(alloc)?;
    if lines.last().is_some_and(|rest| rest.is_empty()) {
        lines.pop();
    }
    Ok(lines)
}

// Answers the site log of the standard input. Each round answers a line at least, so there are as many as lines at most.
fn run(rt: &HostRuntime) -> Result<()> {
    let mut log = Vec::new(rt.alloc());
    rt.stdin().read_to_end(&mut log)?;
    let lines = lines(rt.alloc(), &log)?;
    let mut session = Session::new();
    let mut begin = Commissioning::None;
    for _ in &lines {
        match session.serve(rt, &begin, &lines)? {
            Some(accepted) => begin = accepted,
            None => break,
        }
    }
    let tally = session.tally();
    println!(rt; "{tally}")?;
    Ok(())
}

fn main(rt: HostRuntime) -> Result<()> {
    run(&rt)
}
