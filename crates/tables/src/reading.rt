// Tables that are commissioned by a plan file, and written as one.
ghost use Rattle.std.specs.Prelude.{◌≡◌, ◌≤◌, length, map, take, is_ok, IfOk, OnErr, OnOk, if◌then◌else◌};
ghost use Rattle.refusal.specs.First.{told};
ghost use Rattle.ledger.specs.Effects.{AllCleared};
ghost use Rattle.planfile.specs.Encoding.{file_of};
ghost use Rattle.planfile.specs.Fronted.{fronted};
ghost use Rattle.planfile.specs.Reading.{counts_of, links_of, reading_refusal, stations_of};
ghost use Rattle.planfile.specs.Records.{fields_of};
ghost use Rattle.planfile.specs.RoundTrip.{Holds, ReadsBack};
ghost use Rattle.planfile.specs.Sound.{Sound};
ghost use Rattle.planfile.specs.Writing.{writing_refusal};
ghost use Rattle.tables.specs.View.{Same, ledger_of, view_of};
ghost use Rattle.tables.specs.Read.{file_refusal, Read};

use super::state::Tables;
use cost::Link;
use filekind::FileKind;
use planfile::{Counts, read, read_counts, write};
use refusal::Refusal;

impl<'a, K: FileKind> Tables<'a, K> {
    // Commissions the stations and links of a plan file, with no worked row. Places after the links, and cells past the rows, stay.
    pub(crate) fn read_file(&mut self, bytes: &[u8]) -> Result<(), Refusal>
        ensures refused { told result ≡ file_refusal K.FileKind.format (length self.old.list.now) (length self.old.costs.now) (length self.old.predecessors.now) bytes.now }
        ensures read { OnOk result (Read K.Cost.kind K.Cost.formed bytes.now self.old self.new) }
        ensures cleared { OnOk result (AllCleared K.Cost.kind (view_of K.Cost.kind self.new)) }
        ensures holds { OnOk result (Holds K.Cost.kind K.FileKind.format (ledger_of self.new).stations (ledger_of self.new).links bytes.now) }
        ensures kept { OnErr result (Same self.old self.new) }
    {
        let Counts { stations, .. } = read_counts::<K>(bytes, self.list.len())?;
        let cells = stations as usize * stations as usize;
        if cells > self.costs.len() || cells > self.predecessors.len() {
            return Err(Refusal::Counts);
        }
        let none = self.departures_of(0);
        // while the list is read into, no link counts as laid
        let laid = self.count;
        self.count = 0;
        self.departures = none;
        match read_links(self.list, bytes) {
            Ok(Counts { stations, links }) => {
                self.commission(stations, links);
                Ok(())
            }
            Err(refusal) => {
                let departures = self.departures_of(laid as usize);
                self.count = laid;
                self.departures = departures;
                Err(refusal)
            }
        }
    }

    // Writes the stations and the laid links as a plan file.
    pub(crate) fn write_file(&self, buffer: &mut [u8]) -> Result<usize, Refusal>
        ensures refused { told result ≡ writing_refusal K.Cost.kind K.FileKind.format self.now.stations (ledger_of self.now).links (length buffer.old) }
        ensures value { IfOk result (λ l. l ≡ length (file_of K.Cost.kind K.FileKind.format self.now.stations (ledger_of self.now).links)) }
        ensures after { buffer.new ≡ (if is_ok result then fronted (file_of K.Cost.kind K.FileKind.format self.now.stations (ledger_of self.now).links) buffer.old else buffer.old) }
        ensures reads_back { IfOk result (λ l. Sound K.FileKind.format self.now.stations (map (fields_of K.Cost.kind) (ledger_of self.now).links) → ReadsBack K.Cost.kind K.Cost.formed K.FileKind.format self.now.stations (ledger_of self.now).links (take l buffer.new)) }
    {
        write(self.stations, &self.list[..self.count as usize], buffer)
    }
}

// Reads the links of a plan file into the first cells.
fn read_links<K: FileKind>(cells: &mut [Link<K>], bytes: &[u8]) -> Result<Counts, Refusal>
    ensures refused { told result ≡ reading_refusal K.FileKind.format (length cells.old) bytes.now }
    ensures value { IfOk result (λ c. c ≡ counts_of bytes.now) }
    ensures after { cells.new ≡ (if is_ok result then fronted (links_of K.Cost.kind K.Cost.formed bytes.now) cells.old else cells.old) }
    ensures long { length cells.new ≡ length cells.old }
    ensures fits { IfOk result (λ c. c.links ≤ length cells.old) }
    ensures holds { IfOk result (λ c. Holds K.Cost.kind K.FileKind.format c.stations (take c.links cells.new) bytes.now) }
{
    read(bytes, cells)
}
