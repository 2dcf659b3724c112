// The file layer, reading: a header, then records, into a list of links.
ghost use Rattle.std.specs.Prelude.{◌≡◌, ◌≤◌, [], ◌++◌, map, length, take, drop, is_ok, IfOk, if◌then◌else◌};
ghost use Rattle.std.specs.Simd.{first_chunks};
ghost use Rattle.refusal.specs.First.{fault_told, told};
ghost use Rattle.planfile.specs.Encoding.{encoding};
ghost use Rattle.planfile.specs.Faults.{first_fault};
ghost use Rattle.planfile.specs.Fronted.{fronted};
ghost use Rattle.planfile.specs.Reading.{count_of, counts_of, file_records, links_of, reading_refusal};
ghost use Rattle.planfile.specs.Records.{first_fields, link_of};
ghost use Rattle.planfile.specs.RoundTrip.{Accepts, Holds};

use super::counts::Counts;
use super::field::CostField;
use super::fields::Fields;
use super::header::read_header;
use super::pairs::Pairs;
use super::record::read_link;
use cost::Link;
use filekind::FileKind;
use refusal::{RecordFault, Refusal};

// Reads a plan file into the list of links, and answers its counts. The list is the caller's whole: places after the links stay.
pub fn read<K: FileKind>(bytes: &[u8], list: &mut [Link<K>]) -> Result<Counts, Refusal>
    ensures refused { told result ≡ reading_refusal K.FileKind.format (length list.old) bytes.now }
    ensures value { IfOk result (λ c. c ≡ counts_of bytes.now) }
    ensures after { list.new ≡ (if is_ok result then fronted (links_of K.Cost.kind K.Cost.formed bytes.now) list.old else list.old) }
    ensures long { length list.new ≡ length list.old }
    ensures fits { IfOk result (λ c. c.links ≤ length list.old) }
    ensures holds { IfOk result (λ c. Holds K.Cost.kind K.FileKind.format c.stations (take c.links list.new) bytes.now) }
    ensures accepts { Accepts K.FileKind.format (length list.old) bytes.now (is_ok result) }
{
    let field = CostField::<K>::new();
    let (counts, records) = inspect(&field, bytes, list.len())?;
    store(records, list);
    Ok(counts)
}

// The counts and the records of a file that a list of so many places can take, or the first refusal that fits.
fn inspect<'a, K: FileKind>(
    field: &CostField<K>,
    bytes: &'a [u8],
    places: usize,
) -> Result<(Counts, &'a [[u8; 12]]), Refusal>
    ensures refused { told result ≡ reading_refusal K.FileKind.format places bytes.now }
    ensures value { IfOk result (λ x. x.0 ≡ counts_of bytes.now) }
    ensures records { IfOk result (λ x. map first_fields x.1.now ≡ file_records bytes.now) }
    ensures fits { IfOk result (λ x. (length x.1.now ≡ x.0.links) × (x.0.links ≤ places)) }
    ensures encoded { IfOk result (λ x. encoding K.FileKind.format x.0.stations (file_records bytes.now) ≡ bytes.now) }
{
    let (counts, records) = read_header::<K>(bytes, places)?;
    check_records(field, counts.stations, records)?;
    Ok((counts, records))
}

// Passes the records of a plan of so many stations, or answers the first fault. A `for`, since of a closure that changes `seen`
// a proof knows nothing.
fn check_records<K: FileKind>(
    field: &CostField<K>,
    stations: u16,
    records: &[[u8; 12]],
) -> Result<(), RecordFault>
    requires few { stations ≤ 256 }
    requires short { length records.now ≤ 4096 }
    ensures refused { fault_told result ≡ first_fault K.FileKind.format stations [] (map first_fields records.now) }
{
    let mut seen = Pairs::new(stations);
    for (index, record) in records.iter().enumerate() {
        read_link(field, index as u16, Fields::from(*record), &mut seen)?;
    }
    Ok(())
}

// Puts the links of the records at the start of the list. By index, since nothing is known of a list after `iter_mut` under `zip`.
#[tactic(auto, using(crate::proofs::Stored::stored_more))]
fn store<K: FileKind>(records: &[[u8; 12]], list: &mut [Link<K>])
    requires room { length records.now ≤ length list.old }
    ensures after { list.new ≡ map (link_of K.Cost.kind K.Cost.formed) (map first_fields records.now) ++ drop (length records.now) list.old }
{
    for (index, place) in list[..records.len()].iter_mut().enumerate() {
        *place = Link::from(Fields::from(records[index]));
    }
}
