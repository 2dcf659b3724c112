// What is told besides the number of an answer.
ghost use Rattle.std.specs.Prelude.{◌≡◌, ◌++◌, length, take, drop};
ghost use Rattle.capi.specs.Facts.{facts_of, layer_number, told_in, Accepts, Refuses};
ghost use Rattle.refusal.specs.declared.Layer.{Layer};

use refusal::{Code, Facts, Failing, Layer};

// Puts facts at the start of a list, as many as it has places for. Places after them stay.
pub(crate) fn tell(facts: &mut [u64], told: &[u64])
    ensures after { facts.new ≡ told_in told.now facts.old }
{
    let count = told.len().min(facts.len());
    facts[..count].copy_from_slice(&told[..count]);
}

// Accepts a call, with facts.
pub(crate) fn accept(facts: &mut [u64], told: &[u64]) -> u8
    ensures accepts { Accepts told.now facts.old facts.new result }
{
    tell(facts, told);
    0
}

// Refuses a call, with the facts of the refusal.
pub(crate) fn refuse(facts: &mut [u64], code: Code) -> u8
    ensures refuses { Refuses code facts.old facts.new result }
{
    match code.facts {
        Facts::Bare => {}
        Facts::AtStation(Failing { station, cause }) => tell(
            facts,
            &[station as u64, cause as u64],
        ),
        Facts::AtRecord(index) => tell(facts, &[index as u64]),
        Facts::Below {
            index,
            number,
            layer,
        } => tell(facts, &[index as u64, number as u64, number_of(layer)]),
    }
    code.number
}

// The number of a layer.
fn number_of(layer: Layer) -> u64
    ensures value { result ≡ layer_number layer }
{
    match layer {
        Layer::Field => 0,
        Layer::Record => 1,
    }
}
