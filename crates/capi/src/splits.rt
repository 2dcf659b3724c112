// Calls on files of splits, each in memory of its own. They are not inlined, so that a call takes stack for one kind alone.
ghost use Rattle.cost.specs.Split.{split_formed, split_kind};
ghost use Rattle.filekind.specs.Format.{split_format};
ghost use Rattle.capi.specs.ByMethod.{TableByIn};
ghost use Rattle.capi.specs.Check.{CheckIn};
ghost use Rattle.capi.specs.Route.{RouteIn};
ghost use Rattle.capi.specs.Row.{RowIn};
ghost use Rattle.capi.specs.Sound.{SoundIn};
ghost use Rattle.capi.specs.Table.{TableIn};

use super::lent::lend;
use super::{by_method, check, route, row, whole};
use cost::{Cost, Link, Split};

#[inline(never)]
pub(crate) fn sound(file: &[u8], facts: &mut [u64]) -> u8
    ensures answer { SoundIn split_format file.now facts.old facts.new result }
{
    let mut list = [Link {
        from: 0,
        to: 0,
        cost: Split::far(),
    }; 4096];
    whole::sound(&mut list, file, facts)
}

#[inline(never)]
pub(crate) fn table(
    file: &[u8],
    costs: &mut [u64],
    predecessors: &mut [u16],
    facts: &mut [u64],
) -> u8
    ensures answer { TableIn split_kind split_formed split_format file.now costs.old costs.new predecessors.old predecessors.new facts.old facts.new result }
{
    lend!(Split, whole::table, file, costs, predecessors, facts)
}

#[inline(never)]
pub(crate) fn table_by(
    file: &[u8],
    method: u8,
    queue: u8,
    costs: &mut [u64],
    predecessors: &mut [u16],
    facts: &mut [u64],
) -> u8
    ensures answer { TableByIn split_kind split_formed split_format file.now method queue costs.old costs.new predecessors.old predecessors.new facts.old facts.new result }
{
    lend!(
        Split,
        by_method::table_by,
        file,
        method,
        queue,
        costs,
        predecessors,
        facts
    )
}

#[inline(never)]
pub(crate) fn row(
    file: &[u8],
    source: u16,
    method: u8,
    queue: u8,
    costs: &mut [u64],
    predecessors: &mut [u16],
    facts: &mut [u64],
) -> u8
    ensures answer { RowIn split_kind split_formed split_format file.now source method queue costs.old costs.new predecessors.old predecessors.new facts.old facts.new result }
{
    lend!(
        Split,
        row::row,
        file,
        source,
        method,
        queue,
        costs,
        predecessors,
        facts
    )
}

#[inline(never)]
pub(crate) fn route(file: &[u8], from: u16, to: u16, list: &mut [u16], facts: &mut [u64]) -> u8
    ensures answer { RouteIn split_kind split_formed split_format file.now from to list.old list.new facts.old facts.new result }
{
    lend!(Split, route::route, file, from, to, list, facts)
}

#[inline(never)]
pub(crate) fn check(
    file: &[u8],
    source: u16,
    costs: &[u64],
    predecessors: &[u16],
    facts: &mut [u64],
) -> u8
    ensures answer { CheckIn split_kind split_formed split_format file.now source costs.now predecessors.now facts.old facts.new result }
{
    let mut row = [Split::far(); 256];
    lend!(
        Split,
        check::check,
        &mut row,
        file,
        source,
        costs,
        predecessors,
        facts
    )
}
