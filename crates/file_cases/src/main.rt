// Plan file cases as a table: each line of the input is a case, and its answer is a line of the output.
//
//     read KIND PLACES HEX           reads the file into a list of so many places, and writes it back
//     write KIND STATIONS ROOM LINKS writes the links, as 0-1-7,1-2-9, into a buffer of so many bytes
//     form KIND NUMBER               forms a cost of the kind
//     # words                        repeats the words
//
// One blank divides words. One that is missing is empty, and one too many is not read. A digit of HEX that is none of 0 to 9 and a to f counts
// as 0, and a last one alone is left out. LINKS end at the first number that forms no cost. A number that can't be read ends the program.
#![tactic(auto)]

mod call;
mod case;

use call::answer;
use case::Case;
use cost::{Split, Sum};
use filekind::Kind;
use std::alloc::Global;
use std::io::{BufRead, BufReader};

// The line of the output for a line of the input.
fn output(heap: Global, line: &str) -> anyhow::Result<String> {
    match Case::parse(heap, line)? {
        Case::Comment => Ok(String::from_str(heap, line)?),
        Case::Call(Kind::Sum, call) => answer::<Sum>(heap, &call),
        Case::Call(Kind::Split, call) => answer::<Split>(heap, &call),
    }
}

// Answers each line of the input in turn.
fn run(rt: &HostRuntime) -> anyhow::Result<()> {
    let heap = rt.alloc();
    for line in BufReader::new(heap, rt.stdin())?.lines(heap) {
        let line = line?;
        rt.println(output(heap, &line)?)?;
    }
    Ok(())
}

// Answers the table of the standard input.
fn main(rt: HostRuntime) -> anyhow::Result<()> {
    run(&rt)
}
