// Cases, as the lines of the input tell them.
use anyhow::Result;
use filekind::Kind;
use std::alloc::{AllocError, Global};
use std::array;

// What a line asks for.
#[derive(Drop)]
pub enum Case<'a> {
    Comment,
    Call(Kind, Call<'a>),
}

// A call of the library. Links stay text, since whether their list is read on depends on the kind.
#[derive(Drop)]
pub enum Call<'a> {
    Read {
        bytes: Vec<u8>,
        places: usize,
    },
    Write {
        stations: u16,
        room: usize,
        links: &'a str,
    },
    Form {
        number: u64,
    },
}

// Cases by their lines.
impl<'a> Case<'a> {
    // The case that a line tells.
    pub fn parse(heap: Global, line: &'a str) -> Result<Case<'a>> {
        let mut words = line.split(' ');
        let name = words.next().unwrap_or("");
        if name == "#" {
            return Ok(Case::Comment);
        }
        let others: [&str; 4] = array::from_fn(|_| words.next().unwrap_or(""));
        let [kind, first, second, third] = others;
        let call = Call::parse(heap, name, [first, second, third])?;
        Ok(Case::Call(kind_named(kind), call))
    }
}

// Calls by their names.
impl<'a> Call<'a> {
    // The call of a name, with what it is given; every other name than those of reading and writing stands for forming.
    fn parse(heap: Global, name: &str, arguments: [&'a str; 3]) -> Result<Call<'a>> {
        let [first, second, third] = arguments;
        match name {
            "read" => Ok(Call::Read {
                bytes: bytes_of(heap, second)?,
                places: first.parse()?,
            }),
            "write" => Ok(Call::Write {
                stations: first.parse()?,
                room: second.parse()?,
                links: third,
            }),
            _ => Ok(Call::Form {
                number: first.parse()?,
            }),
        }
    }
}

// The kind of a name; every other name than that of split stands for sum.
fn kind_named(name: &str) -> Kind {
    match name {
        "split" => Kind::Split,
        _ => Kind::Sum,
    }
}

// The bytes of pairs of digits; a last digit without another is left out.
fn bytes_of(heap: Global, digits: &str) -> Result<Vec<u8>, AllocError> {
    let (pairs, _) = digits.as_bytes().as_chunks::<2>();
    pairs
        .iter()
        .map(|[high, low]| digit(*high) << 4 | digit(*low))
        .collect(heap)
}

// The number of a hex digit in lower case; what is none counts as 0.
fn digit(byte: u8) -> u8 {
    match byte {
        b'0'..=b'9' => byte - b'0',
        b'a'..=b'f' => byte - b'a' + 10,
        _ => 0,
    }
}
