// A table of plans, accounts and reports: each line of the input is a line of the output, and a case's line goes on with its answer.
//
//     plan PLACES COSTS PREDECESSORS; STEP; STEP ..    lends a new plan a list of so many places and tables of so many cells,
//                                                      takes the steps on it one after the other, and tells the answer to each
//     memory PLACES COSTS PREDECESSORS; STEP; STEP ..  does the same, and tells what list and tables hold when the plan is gone
//     account HEX                                      the lines of the file's account
//     report HEX                                       the lines of the file's report
//     campuses QUEUE                                   the answers on both worked campuses, with a shelf or a heap, what is left in the
//                                                      places for routes, and the joins at the ends of the ranges
//     # words                                          only repeats the words
//
// A plan is one of sums, worked with a heap. These are its steps:
//
//     make STATIONS                   commissions so many stations
//     read HEX                        commissions the file
//     write ROOM                      writes the plan into a buffer of so many bytes, and tells the whole buffer
//     counts                          the numbers of stations and links
//     rows                            the lines of all worked rows
//     replay ANSWERS POOL, ENTRY ..   replays the entries with so many places for answers, and so many in the pool for routes;
//                                     tells both lists whole, with - where nothing was written
//
// and these the entries of a log, with commas between them:
//
//     lay FROM TO COST
//     lift FROM TO
//     work SOURCE METHOD
//     cost FROM TO
//     route FROM TO PLACES
//     check SOURCE        tests a row that has no place
#![tactic(auto)]

mod call;
mod campus;
mod case;
mod memory;
mod text;

use account::account;
use anyhow::{Context, Result};
use call::answers;
use campus::campuses_text;
use case::Case;
use heap::Heap;
use listing::report;
use memory::Memory;
use shelf::Shelf;
use std::alloc::{AllocError, Global};
use std::io;
use text::lines_text;

// The answer to a case; a comment has none.
fn answer(alloc: Global, case: &Case) -> Result<Option<String>, AllocError> {
    match case {
        Case::Comment => Ok(None),
        Case::Account { bytes } => {
            let lines = account(alloc, bytes)?;
            Ok(Some(lines_text(alloc, &lines)?))
        }
        Case::Report { bytes } => {
            let lines = report(alloc, bytes)?;
            Ok(Some(lines_text(alloc, &lines)?))
        }
        Case::Campuses { heap: true } => Ok(Some(campuses_text::<Heap>(alloc)?)),
        Case::Campuses { heap: false } => Ok(Some(campuses_text::<Shelf>(alloc)?)),
        Case::Plan { sizes, steps } => {
            let mut memory = Memory::new(alloc, *sizes)?;
            Ok(Some(answers(alloc, &mut memory, steps)?))
        }
        Case::Memory { sizes, steps } => {
            let mut memory = Memory::new(alloc, *sizes)?;
            answers(alloc, &mut memory, steps)?;
            Ok(Some(memory.text(alloc)?))
        }
    }
}

// The line of the output for a line of the input.
fn output(alloc: Global, line: &str) -> Result<String> {
    let case = Case::parse(alloc, line).context(format_args!("in the line {line}"))?;
    match answer(alloc, &case)? {
        Some(answer) => Ok(format!(in alloc; "{line}: {answer}")?),
        None => Ok(String::from_str(alloc, line)?),
    }
}

// Answers each line of the standard input in turn.
fn run(rt: &HostRuntime) -> Result<()> {
    let table = io::read_to_string(rt.alloc(), rt.stdin())?;
    for line in table.lines() {
        rt.println(output(rt.alloc(), line)?)?;
    }
    Ok(())
}

// Answers the table of the standard input.
fn main(rt: HostRuntime) -> Result<()> {
    run(&rt)
}
