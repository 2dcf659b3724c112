// Refusals: how every call of the library turns an input down, and the one numbering of them.
// Rests on nothing.
// Every crate above answers with these types.
#![tactic(auto)]

ghost use Rattle.std.specs.Prelude.{◌≡◌, Some};
ghost use Rattle.refusal.specs.Code.{bare as bare_code, code_of, fault_code};
ghost use Rattle.refusal.specs.Text.{code_text, layer_name};
ghost use Rattle.refusal.specs.declared.RecordFault.TheVariants.{Field as field_of_record};
ghost use Rattle.refusal.specs.declared.Refusal.TheVariants.{Field as field_of_file, Record as record_of_file};

use std::fmt;

// The layer of a plan file that a fault belongs to.
#[derive(Clone, Copy, PartialEq, Eq, Debug)]
pub enum Layer {
    Field,
    Record,
}

// A fault of one field of a record: its number lies outside the link range of the plan's kind.
#[derive(Clone, Copy, PartialEq, Eq, Debug)]
pub struct FieldFault {
    pub index: u16,
}

// A fault of one record: of a field of it, or of what its two stations are to the plan. Each case keeps the record's index, so
// that `?` takes it up.
#[derive(Clone, Copy, PartialEq, Eq, Debug)]
pub enum RecordFault {
    Field(FieldFault),
    NoStation { index: u16 },
    SelfLink { index: u16 },
    Repeated { index: u16 },
}

// A station of a supplier's row that fails, and the number of a cause by which it does.
#[derive(Clone, Copy, PartialEq, Eq, Debug)]
pub struct Failing {
    pub station: u16,
    pub cause: u8,
}

// Why a call was refused.
#[derive(Clone, Copy, PartialEq, Eq, Debug)]
pub enum Refusal {
    StationCount,
    Places,
    NoStation,
    SelfLink,
    LinkCost,
    Repeated,
    Full,
    NoLink,
    Worked,
    Unworked,
    Far,
    ShortBuffer,
    RowLength,
    Row(Failing),
    ShortHeader,
    Mark,
    Version,
    Kind,
    Counts,
    Length,
    NoCost,
    Field(FieldFault),
    Record(RecordFault),
}

// What a refusal names besides its number.
#[derive(Clone, Copy, PartialEq, Eq, Debug)]
pub enum Facts {
    Bare,
    AtStation(Failing),
    AtRecord(u16),
    Below {
        index: u16,
        number: u8,
        layer: Layer,
    },
}

// A refusal as people read it: its number and its facts. The rules give refusals these numbers, so they are no enum.
#[derive(Clone, Copy, PartialEq, Eq, Debug)]
pub struct Code {
    pub number: u8,
    pub facts: Facts,
}

// A fault passes up whole. The three impls are by hand, since a derived `From` has no contract.
impl From<FieldFault> for RecordFault {
    ghost from_gives = { λ f r. r ≡ field_of_record f };

    fn from(fault: FieldFault) -> RecordFault {
        RecordFault::Field(fault)
    }
}

impl From<RecordFault> for Refusal {
    ghost from_gives = { λ f r. r ≡ record_of_file f };

    fn from(fault: RecordFault) -> Refusal {
        Refusal::Record(fault)
    }
}

impl From<FieldFault> for Refusal {
    ghost from_gives = { λ f r. r ≡ field_of_file f };

    fn from(fault: FieldFault) -> Refusal {
        Refusal::Field(fault)
    }
}

// The record, the number and the layer of the fault.
impl From<RecordFault> for Facts {
    ghost from_gives = { λ f r. r ≡ fault_code f };

    fn from(fault: RecordFault) -> Facts {
        match fault {
            RecordFault::Field(FieldFault { index }) => Facts::Below {
                index,
                number: 21,
                layer: Layer::Field,
            },
            RecordFault::NoStation { index } => Facts::Below {
                index,
                number: 3,
                layer: Layer::Record,
            },
            RecordFault::SelfLink { index } => Facts::Below {
                index,
                number: 4,
                layer: Layer::Record,
            },
            RecordFault::Repeated { index } => Facts::Below {
                index,
                number: 6,
                layer: Layer::Record,
            },
        }
    }
}

impl RecordFault {
    // The record, the number and the layer of the fault, as a refused file tells them.
    pub fn facts(self) -> Facts
        ensures value { result ≡ fault_code self }
    {
        self.into()
    }
}

impl Refusal {
    // The refusal's number and facts, from which it can be told. No `From`, whose clauses have no place for `distinct`.
    pub fn code(self) -> Code
        ensures value { result ≡ code_of self }
        ensures distinct { (other : Refusal) → code_of other ≡ code_of self → other ≡ self }
    {
        match self {
            Refusal::StationCount => bare(1),
            Refusal::Places => bare(2),
            Refusal::NoStation => bare(3),
            Refusal::SelfLink => bare(4),
            Refusal::LinkCost => bare(5),
            Refusal::Repeated => bare(6),
            Refusal::Full => bare(7),
            Refusal::NoLink => bare(8),
            Refusal::Worked => bare(9),
            Refusal::Unworked => bare(10),
            Refusal::Far => bare(11),
            Refusal::ShortBuffer => bare(12),
            Refusal::RowLength => bare(13),
            Refusal::Row(failing) => Code {
                number: 14,
                facts: Facts::AtStation(failing),
            },
            Refusal::ShortHeader => bare(15),
            Refusal::Mark => bare(16),
            Refusal::Version => bare(17),
            Refusal::Kind => bare(18),
            Refusal::Counts => bare(19),
            Refusal::Length => bare(20),
            Refusal::NoCost => bare(21),
            Refusal::Field(FieldFault { index }) => Code {
                number: 21,
                facts: Facts::AtRecord(index),
            },
            Refusal::Record(below) => Code {
                number: 22,
                facts: below.facts(),
            },
        }
    }
}

// As it stands in a line: the number, then what it names of a station or a record, divided by blanks.
impl fmt::Display for Code {
    ghost output = { λ c. Some (code_text c) };

    fn fmt<W: fmt::Write>(&self, f: &mut fmt::Formatter<W>) -> fmt::Result {
        let Code { number, facts } = *self;
        match facts {
            Facts::Bare => write!(f, "{number}"),
            Facts::AtStation(Failing { station, cause }) => write!(f, "{number} {station} {cause}"),
            Facts::AtRecord(index) => write!(f, "{number} {index}"),
            Facts::Below {
                index,
                number: inner,
                layer: _,
            } => write!(f, "{number} {index} {inner}"),
        }
    }
}

// The layer's name in plain words.
impl fmt::Display for Layer {
    ghost output = { λ l. Some (layer_name l) };

    fn fmt<W: fmt::Write>(&self, f: &mut fmt::Formatter<W>) -> fmt::Result {
        f.write_str(match self {
            Layer::Field => "field",
            Layer::Record => "record",
        })
    }
}

// A number that stands alone.
fn bare(number: u8) -> Code
    ensures value { result ≡ bare_code number }
{
    Code {
        number,
        facts: Facts::Bare,
    }
}
