// The whole account: a plan's lines, or the line of the refusal.
ghost use Rattle.std.specs.Prelude.{◌≡◌, length, IfOk, string_bytes};
ghost use Rattle.account.specs.Account.{account_in, account_of, most_places, plan_text};
ghost use Rattle.account.specs.Lines.{refused_line};

use super::limit::MOST_PLACES;
use cost::{Cost, Link, Split, Sum};
use filekind::{FileKind, Kind};
use planfile::{Counts, read};
use refusal::Code;
use std::alloc::{AllocError, Global};

// A line for the counts as the file tells them, then one for each link: a `for`, since its body allocates.
fn plan_lines<K: FileKind>(
    heap: Global,
    counts: Counts,
    links: &[Link<K>],
) -> Result<String, AllocError>
    ensures value { IfOk result (λ s. string_bytes s ≡ plan_text K.Cost.kind K.FileKind.format counts links.now) }
{
    let word = K::word();
    let mut text = format!(in heap; "{word} {counts}\n")?;
    for link in links {
        writeln!(text, "{link}")?;
    }
    Ok(text)
}

// The line of a refusal.
fn refused_line(heap: Global, code: Code) -> Result<String, AllocError>
    ensures value { IfOk result (λ s. string_bytes s ≡ refused_line code) }
{
    format!(in heap; "refused {code}\n")
}

// The account of a file that is read into the list.
fn account_in<K: FileKind>(
    heap: Global,
    bytes: &[u8],
    list: &mut [Link<K>],
) -> Result<String, AllocError>
    ensures value { IfOk result (λ s. string_bytes s ≡ account_in K.Cost.kind K.Cost.formed K.FileKind.format (length list.old) bytes.now) }
{
    match read(bytes, list) {
        Ok(counts) => plan_lines(heap, counts, &list[..counts.links as usize]),
        Err(refusal) => refused_line(heap, refusal.code()),
    }
}

// The account of a file of one kind, read into a list with a place for each link that a plan may have.
fn account_of<K: FileKind>(heap: Global, bytes: &[u8]) -> Result<String, AllocError>
    ensures value { IfOk result (λ s. string_bytes s ≡ account_in K.Cost.kind K.Cost.formed K.FileKind.format most_places bytes.now) }
{
    let nowhere = Link {
        from: 0,
        to: 0,
        cost: K::far(),
    };
    let mut list = vec![in heap; nowhere; MOST_PLACES]?;
    account_in(heap, bytes, &mut list)
}

// The account of a plan file, of the kind that its kind byte names, else of sum.
pub fn account(heap: Global, bytes: &[u8]) -> Result<String, AllocError>
    ensures value { IfOk result (λ s. string_bytes s ≡ account_of bytes.now) }
{
    match Kind::of_file(bytes) {
        Kind::Split => account_of::<Split>(heap, bytes),
        Kind::Sum => account_of::<Sum>(heap, bytes),
    }
}
