// The least costs of a plan's worked rows, as lines of text.
ghost use Rattle.std.specs.Prelude.{◌≡◌, ◌<◌, ◌++◌, IfOk, OnOk, Some, string_bytes};
ghost use Rattle.plan.specs.View.{view};
ghost use Rattle.listing.specs.Lines.{cost_word, pair_lines, row_lines, table_text};

use cost::Cost;
use plan::Plan;
use std::alloc::{AllocError, Global};
use std::fmt;

// A cost as a line tells it.
#[derive(Clone, Copy)]
pub struct CostWord<K>(pub K);

// Its number, or the word far.
impl<K: Cost> fmt::Display for CostWord<K> {
    ghost output = { λ c. Some (cost_word K.kind c.0) };

    fn fmt<W: fmt::Write>(&self, f: &mut fmt::Formatter<W>) -> fmt::Result {
        let rank = self.0.rank();
        if rank == u64::MAX {
            f.write_str("far")
        } else {
            write!(f, "{rank}")
        }
    }
}

// The line of a pair, if the row is worked.
fn push_pair<K: Cost>(
    text: &mut String,
    plan: &Plan<K>,
    from: u16,
    to: u16,
) -> Result<(), AllocError>
    requires from_there { from < (view K.Cost.kind plan.now).ledger.stations }
    requires to_there { to < (view K.Cost.kind plan.now).ledger.stations }
    ensures value { OnOk result (string_bytes text.new ≡ string_bytes text.old ++ pair_lines K.Cost.kind (view K.Cost.kind plan.now) from to) }
{
    if let Ok(cost) = plan.cost(from, to) {
        let cost = CostWord(cost);
        writeln!(text, "{from} {to} {cost}")?;
    }
    Ok(())
}

// The lines of a row.
fn push_row<K: Cost>(text: &mut String, plan: &Plan<K>, from: u16) -> Result<(), AllocError>
    requires { from < (view K.Cost.kind plan.now).ledger.stations }
    ensures value { OnOk result (string_bytes text.new ≡ string_bytes text.old ++ row_lines K.Cost.kind (view K.Cost.kind plan.now) from) }
{
    for to in 0..plan.counts().stations {
        push_pair(text, plan, from, to)?;
    }
    Ok(())
}

// A line for each pair of stations whose row is worked, in row order.
pub fn table_lines<K: Cost>(heap: Global, plan: &Plan<K>) -> Result<String, AllocError>
    ensures value { IfOk result (λ s. string_bytes s ≡ table_text K.Cost.kind (view K.Cost.kind plan.now)) }
{
    let mut text = String::new(heap);
    for from in 0..plan.counts().stations {
        push_row(&mut text, plan, from)?;
    }
    Ok(text)
}
