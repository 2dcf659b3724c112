// The delivered file kinds by name, for what learns the kind as it runs.
ghost use Rattle.std.specs.Prelude.{◌≡◌, ℕ, Result, slice_index};
ghost use Rattle.filekind.specs.declared.named.Kind.{Kind};
ghost use Rattle.filekind.specs.declared.named.UnknownKind.{UnknownKind};
ghost use Rattle.filekind.specs.Named.{Names, byte_of, kind_of};

use super::kind::FileKind;
use cost::{Split, Sum};

// A delivered kind.
#[derive(Clone, Copy, PartialEq, Eq, Debug)]
pub enum Kind {
    Sum,
    Split,
}

// A byte that names no kind.
#[derive(Clone, Copy, PartialEq, Eq, Debug)]
pub struct UnknownKind(pub u8);

// The kind that a kind byte names.
impl TryFrom<u8> for Kind {
    type Error = UnknownKind;

    ghost try_from_gives = { Names };

    fn try_from(byte: u8) -> Result<Kind, UnknownKind> {
        if byte == Sum::BYTE {
            Ok(Kind::Sum)
        } else if byte == Split::BYTE {
            Ok(Kind::Split)
        } else {
            Err(UnknownKind(byte))
        }
    }
}

impl Kind {
    // The kind that a file's kind byte names; sum where the byte names none or is missing.
    pub fn of_file(bytes: &[u8]) -> Kind
        ensures value { result ≡ kind_of bytes.now }
        ensures named { (kind : Kind) → slice_index bytes.now 5 ≡ byte_of kind → result ≡ kind }
    {
        let Some(byte) = bytes.get(5) else {
            return Kind::Sum;
        };
        Kind::try_from(*byte).unwrap_or(Kind::Sum)
    }
}

// A byte names one kind, or is told to name none.
pub fn bytes_name_one()
    ensures one { (byte : ℕ) (r other : Result Kind UnknownKind) → Names byte r → Names byte other → r ≡ other }
{}
