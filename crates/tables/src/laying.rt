// Laying and lifting links.
ghost use Rattle.std.specs.Prelude.{◌≡◌, [], ◌∷◌, ◌++◌, ◌<◌, ◌≤◌, ◌+◌, ◌-◌, IfOk, OnOk, OnErr, length, slice_set, take};
ghost use Rattle.std.specs.List.{position, remove, copy_within, CopiedTo, SameBelow};
ghost use Rattle.refusal.specs.First.{told};
ghost use Rattle.ledger.specs.Ledger.{unmarked};
ghost use Rattle.routes.specs.Network.{leads};
ghost use Rattle.ledger.specs.Refusals.{lay_refusal, lift_refusal, no_link_cost};
ghost use Rattle.ledger.specs.After.{after_lay, after_lift};
ghost use Rattle.ledger.specs.Effects.{LayEffect, LiftEffect};
ghost use Rattle.planfile.specs.Fronted.{fronted};
ghost use Rattle.departures.specs.Index.{Indexed};
ghost use Rattle.tables.specs.View.{ledger_of, view_of};
ghost use Rattle.tables.specs.Lent.{SameMemory};
ghost use Rattle.tables.specs.Relinked.{Unworked, Relinked};

use super::commissioning::none_worked;
use super::state::Tables;
use cost::{Cost, Link};
use departures::Departures;
use refusal::Refusal;

impl<'a, K: Cost> Tables<'a, K> {
    // Lays a link after those that are laid; then no row is worked.
    pub(crate) fn append_link(&mut self, from: u16, to: u16, cost: K) -> Result<(), Refusal>
        ensures effect { LayEffect K.Cost.kind (view_of K.Cost.kind self.old) (view_of K.Cost.kind self.new) from to cost result }
        ensures refused { told result ≡ lay_refusal K.Cost.kind (ledger_of self.old) from to cost }
        ensures left { OnOk result (Relinked K.Cost.kind (after_lay (ledger_of self.old) from to cost) self.old self.new) }
        ensures kept { OnErr result (self.new ≡ self.old) }
    {
        self.test_link(from, to, cost)?;
        self.unwork();
        self.push_link(Link { from, to, cost });
        Ok(())
    }

    // Lifts the link from one station to another; then no row is worked.
    #[tactic(auto, using(crate::proofs::Finding::without_found))]
    pub(crate) fn remove_link(&mut self, from: u16, to: u16) -> Result<(), Refusal>
        ensures effect { LiftEffect K.Cost.kind (view_of K.Cost.kind self.old) (view_of K.Cost.kind self.new) from to result }
        ensures refused { told result ≡ lift_refusal (ledger_of self.old) from to }
        ensures left { OnOk result (Relinked K.Cost.kind (after_lift (ledger_of self.old) from to) self.old self.new) }
        ensures kept { OnErr result (self.new ≡ self.old) }
    {
        let place = self.laid_place(from, to)?;
        self.unwork();
        self.take_out(place);
        Ok(())
    }

    // Refuses a link that cannot be laid.
    #[tactic(auto, using(crate::proofs::Finding::found))]
    fn test_link(&self, from: u16, to: u16, cost: K) -> Result<(), Refusal>
        ensures refused { told result ≡ lay_refusal K.Cost.kind (ledger_of self.now) from to cost }
        ensures fits { OnOk result ((from < self.now.stations) × (to < self.now.stations) × (self.now.count < length self.now.list.now)) }
    {
        if from >= self.stations || to >= self.stations {
            return Err(Refusal::NoStation);
        }
        if from == to {
            return Err(Refusal::SelfLink);
        }
        if is_no_link_cost(cost) {
            return Err(Refusal::LinkCost);
        }
        if self.find_link(from, to).is_some() {
            return Err(Refusal::Repeated);
        }
        if self.count as usize >= self.list.len() {
            return Err(Refusal::Full);
        }
        Ok(())
    }

    // The place of the link from one station to another, or why there is none.
    #[tactic(auto, using(crate::proofs::Finding::found))]
    fn laid_place(&self, from: u16, to: u16) -> Result<usize, Refusal>
        ensures refused { told result ≡ lift_refusal (ledger_of self.now) from to }
        ensures place { IfOk result (λ p. position (leads from to) (ledger_of self.now).links ≡ Some p) }
    {
        if from >= self.stations || to >= self.stations {
            return Err(Refusal::NoStation);
        }
        self.find_link(from, to).ok_or(Refusal::NoLink)
    }

    // The place of the link from one station to another, if one is laid.
    fn find_link(&self, from: u16, to: u16) -> Option<usize>
        ensures value { result ≡ position (leads from to) (ledger_of self.now).links }
    {
        self.list[..self.count as usize]
            .iter()
            .position(|link| link.from == from && link.to == to)
    }

    // Puts a link after those that are laid.
    #[tactic(auto, using(crate::proofs::Moved::fronted_set))]
    fn push_link(&mut self, link: Link<K>)
        requires stations { (link.from < self.old.stations) × (link.to < self.old.stations) }
        requires room { self.old.count < length self.old.list.now }
        ensures memory { SameMemory self.old self.new }
        ensures ledger { ledger_of self.new ≡ record (ledger_of self.old) { links = (ledger_of self.old).links ++ link ∷ [] } }
        ensures list { self.new.list.now ≡ fronted (ledger_of self.new).links self.old.list.now }
        ensures tables { (self.new.costs ≡ self.old.costs) × (self.new.predecessors ≡ self.old.predecessors) }
    {
        self.departures = put(self.list, self.count as usize, link);
        self.count += 1;
    }

    // Takes out the link at a place: those after it move down by one.
    #[tactic(auto, using(crate::proofs::Moved::closed))]
    fn take_out(&mut self, place: usize)
        requires { place < self.old.count }
        ensures memory { SameMemory self.old self.new }
        ensures ledger { ledger_of self.new ≡ record (ledger_of self.old) { links = remove (ledger_of self.old).links place } }
        ensures list { self.new.list.now ≡ fronted (ledger_of self.new).links self.old.list.now }
        ensures tables { (self.new.costs ≡ self.old.costs) × (self.new.predecessors ≡ self.old.predecessors) }
    {
        self.departures = close(self.list, place, self.count as usize);
        self.count -= 1;
    }

    // Clears the rows that are worked; then none is.
    fn unwork(&mut self)
        ensures memory { SameMemory self.old self.new }
        ensures ledger { ledger_of self.new ≡ record (ledger_of self.old) { marked = unmarked } }
        ensures list { self.new.list.now ≡ self.old.list.now }
        ensures rows { Unworked K.Cost.kind self.old self.new }
    {
        self.clear_worked();
        self.worked = none_worked();
    }

    // Clears the rows that are worked.
    fn clear_worked(&mut self)
        ensures memory { SameMemory self.old self.new }
        ensures stations { self.new.stations ≡ self.old.stations }
        ensures count { self.new.count ≡ self.old.count }
        ensures worked { self.new.worked ≡ self.old.worked }
        ensures list { self.new.list.now ≡ self.old.list.now }
        ensures rows { Unworked K.Cost.kind self.old self.new }
    {
        for row in 0..self.stations {
            if self.is_worked(row) {
                self.clear_row(row);
            }
        }
    }
}

// Puts a link at a place of a list; the departures of the links up to it.
fn put<K: Copy>(list: &mut [Link<K>], place: usize, link: Link<K>) -> Departures
    requires { place < length list.old }
    ensures list { list.new ≡ slice_set list.old place link }
    ensures indexed { Indexed (take (place + 1) list.new) result }
{
    list[place] = link;
    Departures::of(&list[..place + 1])
}

// Moves the links after a place, up to another, down by one; the departures of those up to the last.
fn close<K: Copy>(list: &mut [Link<K>], place: usize, end: usize) -> Departures
    requires { (place < end) × (end ≤ length list.old) }
    ensures after { list.new ≡ copy_within list.old (place + 1) end place }
    ensures moved { CopiedTo list.old list.new (place + 1) place (end - (place + 1)) }
    ensures below { SameBelow list.old list.new place }
    ensures indexed { Indexed (take (end - 1) list.new) result }
{
    list.copy_within(place + 1..end, place);
    Departures::of(&list[..end - 1])
}

// Whether a cost is none of a link.
fn is_no_link_cost<K: Cost>(cost: K) -> bool
    ensures value { result ≡ no_link_cost K.Cost.kind cost }
{
    let rank = cost.rank();
    rank == K::zero().rank() || rank == u64::MAX
}
