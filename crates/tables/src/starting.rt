// Plans that are made in lent memory, commissioned, and written as files.
ghost use Rattle.std.specs.Prelude.{◌≡◌, ◌≢◌, [], Some, false, length, replicate, is_ok, IfOk, OnOk, OnErr, if◌then◌else◌};
ghost use Rattle.refusal.specs.Code.{bare};
ghost use Rattle.refusal.specs.First.{told};
ghost use Rattle.planfile.specs.Encoding.{file_of};
ghost use Rattle.planfile.specs.Fronted.{fronted};
ghost use Rattle.planfile.specs.Reading.{links_of, stations_of};
ghost use Rattle.planfile.specs.RoundTrip.{Holds};
ghost use Rattle.planfile.specs.Writing.{writing_refusal};
ghost use Rattle.ledger.specs.Stands.{Stands};
ghost use Rattle.tables.specs.Lent.{Over};
ghost use Rattle.tables.specs.Made.{make_refusal, made, Made};
ghost use Rattle.tables.specs.Read.{file_refusal, Read};
ghost use Rattle.tables.specs.View.{Same};
ghost use Rattle.tables.specs.Rereads.{Rereads};
ghost use Rattle.tables.specs.View.{view_of as view};

use super::state::Tables;
use cost::{Cost, Link};
use filekind::FileKind;
use refusal::Refusal;

impl<'a, K: Cost> Tables<'a, K> {
    // A plan in memory that the caller lends, as it is: no station yet, no link, and no row worked.
    #[tactic(auto, using(crate::proofs::Commissioned::new_stands))]
    pub fn new(
        list: &'a mut [Link<K>],
        costs: &'a mut [K],
        predecessors: &'a mut [u16],
    ) -> Tables<'a, K>
        ensures memory { Over result list.entry costs.entry predecessors.entry }
        ensures stations { result.stations ≡ 0 }
        ensures count { result.count ≡ 0 }
        ensures worked { result.worked ≡ replicate 256 false }
        ensures list { result.list.now ≡ list.old }
        ensures costs { result.costs.now ≡ costs.old }
        ensures predecessors { result.predecessors.now ≡ predecessors.old }
        ensures stands { Stands K.Cost.kind (made 0 (length list.old) []) [] (view K.Cost.kind result) }
    {
        Tables::over(list, costs, predecessors)
    }

    // Commissions a number of stations, with no link and no worked row.
    #[tactic(auto, using(crate::proofs::Commissioned::made_stands))]
    pub fn make(&mut self, stations: u16) -> Result<(), Refusal>
        ensures refused { told result ≡ make_refusal stations (length self.old.list.now) (length self.old.costs.now) (length self.old.predecessors.now) }
        ensures left { OnOk result (Made K.Cost.kind stations self.old self.new) }
        ensures commissioned { OnOk result (Stands K.Cost.kind (made stations (length self.old.list.now) []) [] (view K.Cost.kind self.new)) }
        ensures same { OnErr result (self.new ≡ self.old) }
    {
        self.make_empty(stations)
    }
}

impl<'a, K: FileKind> Tables<'a, K> {
    // Commissions the stations and links of a plan file, with no worked row.
    #[tactic(auto, using(crate::proofs::Commissioned::read_stands))]
    pub fn read(&mut self, bytes: &[u8]) -> Result<(), Refusal>
        ensures refused { told result ≡ file_refusal K.FileKind.format (length self.old.list.now) (length self.old.costs.now) (length self.old.predecessors.now) bytes.now }
        ensures left { OnOk result (Read K.Cost.kind K.Cost.formed bytes.now self.old self.new) }
        ensures commissioned { OnOk result (Stands K.Cost.kind (made (stations_of bytes.now) (length self.old.list.now) (links_of K.Cost.kind K.Cost.formed bytes.now)) [] (view K.Cost.kind self.new)) }
        ensures holds { OnOk result (Holds K.Cost.kind K.FileKind.format (view K.Cost.kind self.new).ledger.stations (view K.Cost.kind self.new).ledger.links bytes.now) }
        ensures same { OnErr result (Same self.old self.new) }
        ensures kept { OnErr result (view K.Cost.kind self.new ≡ view K.Cost.kind self.old) }
    {
        self.read_file(bytes)
    }

    // Writes the plan's file at the start of the buffer, and answers its length. A plan has at most 4,096 links, so 2 never fits.
    pub fn write(&self, buffer: &mut [u8]) -> Result<usize, Refusal>
        ensures refused { told result ≡ writing_refusal K.Cost.kind K.FileKind.format (view K.Cost.kind self.now).ledger.stations (view K.Cost.kind self.now).ledger.links (length buffer.old) }
        ensures never_2 { told result ≢ Some (bare 2) }
        ensures value { IfOk result (λ l. l ≡ length (file_of K.Cost.kind K.FileKind.format (view K.Cost.kind self.now).ledger.stations (view K.Cost.kind self.now).ledger.links)) }
        ensures after { buffer.new ≡ (if is_ok result then fronted (file_of K.Cost.kind K.FileKind.format (view K.Cost.kind self.now).ledger.stations (view K.Cost.kind self.now).ledger.links) buffer.old else buffer.old) }
        ensures reads_back { Rereads K.Cost.kind K.Cost.formed K.FileKind.format (view K.Cost.kind self.now) result buffer.new }
    {
        self.write_file(buffer)
    }
}
