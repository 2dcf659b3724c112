// The file layer, the header: the tests that come before the records.
ghost use Rattle.std.specs.Prelude.{◌≡◌, ◌+◌, ◌*◌, length, drop, IfOk, IfErr, Some, OnOk};
ghost use Rattle.std.specs.Simd.{first_chunks};
ghost use Rattle.refusal.specs.Code.{code_of};
ghost use Rattle.refusal.specs.First.{told};
ghost use Rattle.planfile.specs.Header.{Passes};
ghost use Rattle.planfile.specs.Reading.{count_of, counts_of, header_refusal, reading_refusal, stations_of};

use super::counts::Counts;
use filekind::FileKind;
use refusal::Refusal;

// The counts of a header, for a list of so many places, or the first refusal that fits it. What follows it is not looked at.
pub fn read_counts<K: FileKind>(bytes: &[u8], places: usize) -> Result<Counts, Refusal>
    ensures refused { told result ≡ header_refusal K.FileKind.format places bytes.now }
    ensures value { IfOk result (λ c. c ≡ counts_of bytes.now) }
{
    let (counts, _) = split_header::<K>(bytes, places)?;
    Ok(counts)
}

// The counts of a header that passes, and the bytes of each record, if the file is as long as the counts require.
pub(crate) fn read_header<'a, K: FileKind>(
    bytes: &'a [u8],
    places: usize,
) -> Result<(Counts, &'a [[u8; 12]]), Refusal>
    ensures refused { IfErr result (λ e. Some (code_of e) ≡ reading_refusal K.FileKind.format places bytes.now) }
    ensures passes { OnOk result (Passes K.FileKind.format places bytes.now) }
    ensures long { OnOk result (length bytes.now ≡ 10 + 12 * count_of bytes.now) }
    ensures stations { IfOk result (λ x. x.0.stations ≡ stations_of bytes.now) }
    ensures links { IfOk result (λ x. x.0.links ≡ count_of bytes.now) }
    ensures counted { IfOk result (λ x. length x.1.now ≡ x.0.links) }
    ensures records { IfOk result (λ x. x.1.now ≡ first_chunks 12 (count_of bytes.now) (drop 10 bytes.now)) }
{
    let (counts, records) = split_header::<K>(bytes, places)?;
    if records.len() != 12 * counts.links as usize {
        return Err(Refusal::Length);
    }
    let (records, _) = records.as_chunks();
    Ok((counts, records))
}

// The counts of a header that passes its tests, and the bytes after it.
fn split_header<'a, K: FileKind>(
    bytes: &'a [u8],
    places: usize,
) -> Result<(Counts, &'a [u8]), Refusal>
    ensures refused { told result ≡ header_refusal K.FileKind.format places bytes.now }
    ensures passes { OnOk result (Passes K.FileKind.format places bytes.now) }
    ensures value { IfOk result (λ x. x.0 ≡ counts_of bytes.now) }
    ensures rest { IfOk result (λ x. x.1.now ≡ drop 10 bytes.now) }
{
    if !(1..=4096).contains(&places) {
        return Err(Refusal::Places);
    }
    let [c, p, l, v1, v0, kind, n1, n0, k1, k0, rest @ ..] = bytes else {
        return Err(Refusal::ShortHeader);
    };
    if [*c, *p, *l] != *b"CPL" {
        return Err(Refusal::Mark);
    }
    if u16::from_be_bytes([*v1, *v0]) != 1 {
        return Err(Refusal::Version);
    }
    if *kind != K::kind_byte() {
        return Err(Refusal::Kind);
    }
    let stations = u16::from_be_bytes([*n1, *n0]);
    let links = u16::from_be_bytes([*k1, *k0]);
    if !(1..=256).contains(&stations) || links as usize > places {
        return Err(Refusal::Counts);
    }
    Ok((Counts { stations, links }, rest))
}
