// A table of calls, given to each delivered queue in turn: after a queue's name, each line of the input is a line of the output,
// and a call's line goes on with its answer.
//
//     reset STATIONS             sets the number of stations
//     put STATION RANK           makes the station wait
//     take                       takes a station
//     waits STATION              whether the station waits
//     taken                      the number taken
//     drain PLACES               drains into a list of so many places, and tells how many were taken and the whole list
//     repeat TIMES STATION RANK  puts the station and takes one, so many times, and tells the number taken
//     # words                    only repeats the words
#![tactic(auto)]

mod call;
mod case;

use call::answer;
use case::Case;
use heap::Heap;
use queue::Queue;
use shelf::Shelf;
use std::alloc::Global;
use std::io;

// The line of the output for a line of the input.
fn output<Q: Queue>(alloc: Global, queue: &mut Q, line: &str) -> anyhow::Result<String> {
    match Case::parse(alloc, line)? {
        Case::Comment => Ok(String::from_str(alloc, line)?),
        Case::Call(call) => {
            let answer = answer(alloc, queue, call)?;
            Ok(format!(in alloc; "{line}: {answer}")?)
        }
    }
}

// Gives each line of the table to a new queue of that name.
fn play<Q: Queue + Drop>(
    rt: &HostRuntime,
    name: &str,
    mut queue: Q,
    table: &str,
) -> anyhow::Result<()> {
    println!(rt; "# {name}")?;
    for line in table.lines() {
        rt.println(output(rt.alloc(), &mut queue, line)?)?;
    }
    Ok(())
}

// Gives the table of the standard input to each queue.
fn run(rt: &HostRuntime) -> anyhow::Result<()> {
    let table = io::read_to_string(rt.alloc(), rt.stdin())?;
    play(rt, "shelf", Shelf::new(), &table)?;
    play(rt, "heap", Heap::new(), &table)?;
    Ok(())
}

// Answers the table of the standard input.
fn main(rt: HostRuntime) -> anyhow::Result<()> {
    run(&rt)
}
