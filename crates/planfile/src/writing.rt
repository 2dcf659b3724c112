// The file layer, writing: a header, then a record for each link, into a buffer.
ghost use Rattle.std.specs.Prelude.{◌≡◌, ℕ, ◌+◌, ◌*◌, ◌≤◌, ◌<◌, true, List, ◌++◌, map, length, take, drop, is_ok, IfOk, IfSome, if◌then◌else◌};
ghost use Rattle.std.specs.List.{flat_map};
ghost use Rattle.refusal.specs.First.{told};
ghost use Rattle.planfile.specs.Encoding.{file_of, header};
ghost use Rattle.planfile.specs.Fronted.{fronted};
ghost use Rattle.planfile.specs.Records.{field_bytes, fields_of};
ghost use Rattle.planfile.specs.RoundTrip.{PlanFits, ReadsBack, Unambiguous};
ghost use Rattle.planfile.specs.Sound.{Sound};
ghost use Rattle.planfile.specs.Writing.{writing_refusal};
ghost use Rattle.planfile.specs.declared.fields.Fields.{Fields};

use super::field::CostField;
use super::fields::Fields;
use cost::Link;
use filekind::FileKind;
use refusal::Refusal;

// Writes the plan's file at the start of the buffer, and answers its length. Stations and links are lent apart, as a list without
// a plan has them.
pub fn write<K: FileKind>(
    stations: u16,
    links: &[Link<K>],
    buffer: &mut [u8],
) -> Result<usize, Refusal>
    ensures refused { told result ≡ writing_refusal K.Cost.kind K.FileKind.format stations links.now (length buffer.old) }
    ensures value { IfOk result (λ l. l ≡ length (file_of K.Cost.kind K.FileKind.format stations links.now)) }
    ensures after { buffer.new ≡ (if is_ok result then fronted (file_of K.Cost.kind K.FileKind.format stations links.now) buffer.old else buffer.old) }
    ensures reads_back { IfOk result (λ l. Sound K.FileKind.format stations (map (fields_of K.Cost.kind) links.now) → ReadsBack K.Cost.kind K.Cost.formed K.FileKind.format stations links.now (take l buffer.new)) }
    ensures accepts { Sound K.FileKind.format stations (map (fields_of K.Cost.kind) links.now) → length (file_of K.Cost.kind K.FileKind.format stations links.now) ≤ length buffer.old → is_ok result ≡ true }
    ensures fits { (n : ℕ) (xs : List Fields) → Sound K.FileKind.format n xs → PlanFits n xs }
    ensures unambiguous { Unambiguous K.FileKind.format }
{
    let field = CostField::<K>::new();
    let len = measure(&field, stations, links, buffer.len())?;
    paste(buffer, 0, &header_bytes::<K>(stations, links.len() as u16));
    write_records(links, buffer);
    Ok(len)
}

// The length of the plan's file, or the first refusal that fits a buffer of so many bytes.
fn measure<K: FileKind>(
    field: &CostField<K>,
    stations: u16,
    links: &[Link<K>],
    room: usize,
) -> Result<usize, Refusal>
    ensures refused { told result ≡ writing_refusal K.Cost.kind K.FileKind.format stations links.now room }
    ensures value { IfOk result (λ l. (l ≡ 10 + 12 * length links.now) × (l ≤ room) × (length links.now ≤ 4096)) }
{
    if !(1..=256).contains(&stations) {
        return Err(Refusal::StationCount);
    }
    if links.len() > 4096 {
        return Err(Refusal::Places);
    }
    let len = 10 + 12 * links.len();
    if room < len {
        return Err(Refusal::ShortBuffer);
    }
    field.check_all(links)?;
    Ok(len)
}

// The ten bytes before the records. A function, since a file kind is no value to convert.
fn header_bytes<K: FileKind>(stations: u16, links: u16) -> [u8; 10]
    ensures value { result ≡ header K.FileKind.format stations links }
{
    let kind = K::kind_byte();
    let [n1, n0] = stations.to_be_bytes();
    let [k1, k0] = links.to_be_bytes();
    [b'C', b'P', b'L', 0, 1, kind, n1, n0, k1, k0]
}

// Copies a part into the buffer at a place.
fn paste(buffer: &mut [u8], at: usize, part: &[u8])
    requires { at + length part.now ≤ length buffer.old }
    ensures after { buffer.new ≡ take at buffer.old ++ fronted part.now (drop at buffer.old) }
{
    let end = at + part.len();
    buffer[at..end].copy_from_slice(part);
}

// Writes the records after the header's ten bytes. By place, since nothing is known of a slice after `chunks_exact_mut`.
fn write_records<K: FileKind>(links: &[Link<K>], buffer: &mut [u8])
    requires { 10 + 12 * length links.now ≤ length buffer.old }
    ensures after { buffer.new ≡ (take 10 buffer.old ++ flat_map field_bytes (map (fields_of K.Cost.kind) links.now)) ++ drop (10 + 12 * length links.now) buffer.old }
{
    for (index, link) in links.iter().enumerate() {
        let record: [u8; 12] = Fields::from(*link).into();
        paste(buffer, 10 + 12 * index, &record);
    }
}
