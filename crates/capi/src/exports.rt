// The functions that programs in C call.
ghost use Rattle.capi.specs.ByMethod.{TableByAnswer};
ghost use Rattle.capi.specs.Check.{CheckAnswer};
ghost use Rattle.capi.specs.Route.{RouteAnswer};
ghost use Rattle.capi.specs.Row.{RowAnswer};
ghost use Rattle.capi.specs.Sound.{SoundAnswer};
ghost use Rattle.capi.specs.Table.{TableAnswer};

use super::{splits, sums};
use filekind::Kind;

// Whether a file is sound.
#[unsafe(no_mangle)]
pub extern "C" fn firnolvag_sound(file: &[u8], facts: &mut [u64]) -> u8
    ensures answer { SoundAnswer file.now facts.old facts.new result }
{
    match Kind::of_file(file) {
        Kind::Sum => sums::sound(file, facts),
        Kind::Split => splits::sound(file, facts),
    }
}

// The whole table of a file, in whatever way is thought to be the fastest.
#[unsafe(no_mangle)]
pub extern "C" fn firnolvag_table(
    file: &[u8],
    costs: &mut [u64],
    predecessors: &mut [u16],
    facts: &mut [u64],
) -> u8
    ensures answer { TableAnswer file.now costs.old costs.new predecessors.old predecessors.new facts.old facts.new result }
{
    match Kind::of_file(file) {
        Kind::Sum => sums::table(file, costs, predecessors, facts),
        Kind::Split => splits::table(file, costs, predecessors, facts),
    }
}

// The whole table of a file, each row in row order by one method with one queue.
#[unsafe(no_mangle)]
pub extern "C" fn firnolvag_table_by(
    file: &[u8],
    method: u8,
    queue: u8,
    costs: &mut [u64],
    predecessors: &mut [u16],
    facts: &mut [u64],
) -> u8
    ensures answer { TableByAnswer file.now method queue costs.old costs.new predecessors.old predecessors.new facts.old facts.new result }
{
    match Kind::of_file(file) {
        Kind::Sum => sums::table_by(file, method, queue, costs, predecessors, facts),
        Kind::Split => splits::table_by(file, method, queue, costs, predecessors, facts),
    }
}

// One row of a file, by one method with one queue.
#[unsafe(no_mangle)]
pub extern "C" fn firnolvag_row(
    file: &[u8],
    source: u16,
    method: u8,
    queue: u8,
    costs: &mut [u64],
    predecessors: &mut [u16],
    facts: &mut [u64],
) -> u8
    ensures answer { RowAnswer file.now source method queue costs.old costs.new predecessors.old predecessors.new facts.old facts.new result }
{
    match Kind::of_file(file) {
        Kind::Sum => sums::row(file, source, method, queue, costs, predecessors, facts),
        Kind::Split => splits::row(file, source, method, queue, costs, predecessors, facts),
    }
}

// A route between two stations of a file, written at the start of a list.
#[unsafe(no_mangle)]
pub extern "C" fn firnolvag_route(
    file: &[u8],
    from: u16,
    to: u16,
    list: &mut [u16],
    facts: &mut [u64],
) -> u8
    ensures answer { RouteAnswer file.now from to list.old list.new facts.old facts.new result }
{
    match Kind::of_file(file) {
        Kind::Sum => sums::route(file, from, to, list, facts),
        Kind::Split => splits::route(file, from, to, list, facts),
    }
}

// Tests a supplier's row against the links of a file.
#[unsafe(no_mangle)]
pub extern "C" fn firnolvag_check(
    file: &[u8],
    source: u16,
    costs: &[u64],
    predecessors: &[u16],
    facts: &mut [u64],
) -> u8
    ensures answer { CheckAnswer file.now source costs.now predecessors.now facts.old facts.new result }
{
    match Kind::of_file(file) {
        Kind::Sum => sums::check(file, source, costs, predecessors, facts),
        Kind::Split => splits::check(file, source, costs, predecessors, facts),
    }
}
