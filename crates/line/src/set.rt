// The call set: an entry in the journal, other values at a place, nodes renewed.
ghost use Rattle.std.specs.Prelude.{◌≡◌, ◌-◌, ◌<◌, ◌≤◌, true, Some, Ok, length, slice_get};
ghost use Rattle.tree.specs.Shape.{height, leaf, node_count};
ghost use Rattle.tree.specs.Nodes.{Rewritten};
ghost use Rattle.line.specs.View.{put};
ghost use Rattle.line.specs.State.{at, count_of, entries_of, in_trial};
ghost use Rattle.line.specs.Replies.{reply_of};
ghost use Rattle.line.specs.Calls.{SetCall, Renewed, one_more, entered};
ghost use Rattle.line.specs.Due.{GoesOn};

use crate::lines::Standing;
use crate::request::Request;
use crate::rooms::Rooms;
use crate::values::{Entry, Values};
use kind::Kind;
use refusal::Refusal;
use station::record::Station;

impl<K: Kind> Standing<K> {
    // Replaces status and codes at a place, and answers how many joins that took. In a trial it first enters what stood there.
    pub fn set(
        &mut self,
        list: &mut [Station],
        nodes: &mut [K::Cell],
        journal: &mut [Entry],
        place: usize,
        values: Values,
    ) -> Result<usize, Refusal>
        ensures call { SetCall (K.Kind.ops self.old.tree.kind) place values
            (at self.old list.old nodes.old journal.old) result (at self.new list.new nodes.new journal.new) }
        ensures law { GoesOn (K.Kind.ops self.old.tree.kind) (K.Kind.meaning self.old.tree.kind) (at self.old list.old nodes.old journal.old)
            (Request.Set place values) (reply_of result) (at self.new list.new nodes.new journal.new) }
    {
        self.do_set(list, nodes, journal, place, values)
    }

    // What `set` does.
    pub(crate) fn do_set(
        &mut self,
        list: &mut [Station],
        nodes: &mut [K::Cell],
        journal: &mut [Entry],
        place: usize,
        values: Values,
    ) -> Result<usize, Refusal>
        ensures { SetCall (K.Kind.ops self.old.tree.kind) place values (at self.old list.old nodes.old journal.old) result
            (at self.new list.new nodes.new journal.new) }
    {
        let rooms = Rooms::of(list, nodes, journal);
        self.check_set(list, rooms, place, values)?;
        self.change(list, journal, place, values);
        self.renew(list, nodes, place)
    }

    // Puts other values at a place, and first, in a trial, enters the old ones.
    fn change(&mut self, list: &mut [Station], journal: &mut [Entry], place: usize, values: Values)
        requires from { 1 ≤ place }
        requires to { place ≤ length list.old }
        requires journal { in_trial self.old.trial ≡ true → entries_of self.old.trial < length journal.old }
        ensures line { self.new ≡ record { tree = self.old.tree; trial = one_more self.old.trial } }
        ensures list { list.new ≡ put list.old place values }
        ensures journal { journal.new ≡ entered self.old.trial place (slice_get list.old (place - 1)) journal.old }
    {
        let old = list[place - 1];
        self.enter(journal, place, &old);
        list[place - 1] = values.on(&old);
    }

    // In a trial, enters place and values of a station in the journal, behind the other entries.
    fn enter(&mut self, journal: &mut [Entry], place: usize, station: &Station)
        requires { in_trial self.old.trial ≡ true → entries_of self.old.trial < length journal.old }
        ensures line { self.new ≡ record { tree = self.old.tree; trial = one_more self.old.trial } }
        ensures journal { journal.new ≡ entered self.old.trial place (Some station.now) journal.old }
    {
        if let Some(entries) = self.trial {
            let values = Values::of(station);
            journal[entries] = Entry { place, values };
            self.trial = Some(entries + 1);
        }
    }

    // Puts other values at a place, and renews its leaf and the nodes above it.
    pub(crate) fn replace(
        &self,
        list: &mut [Station],
        nodes: &mut [K::Cell],
        place: usize,
        values: Values,
    ) -> Result<usize, Refusal>
        requires from { 1 ≤ place }
        requires to { place ≤ count_of self.now }
        requires list { count_of self.now ≤ length list.old }
        requires nodes { node_count (height (count_of self.now)) ≤ length nodes.old }
        ensures done { result ≡ Ok (height (count_of self.now)) }
        ensures list { list.new ≡ put list.old place values }
        ensures nodes { Renewed (K.Kind.ops self.now.tree.kind) (count_of self.now) place list.new nodes.old nodes.new }
    {
        list[place - 1] = values.on(&list[place - 1]);
        self.renew(list, nodes, place)
    }

    // Writes the leaf of a place for the station that is there, and rejoins the nodes above it.
    #[tactic(auto, using(crate::proofs::Undoing::renewed))]
    fn renew(&self, list: &[Station], nodes: &mut [K::Cell], place: usize) -> Result<usize, Refusal>
        requires from { 1 ≤ place }
        requires to { place ≤ count_of self.now }
        requires list { count_of self.now ≤ length list.now }
        requires nodes { node_count (height (count_of self.now)) ≤ length nodes.old }
        ensures done { result ≡ Ok (height (count_of self.now)) }
        ensures nodes { Renewed (K.Kind.ops self.now.tree.kind) (count_of self.now) place list.now nodes.old nodes.new }
    {
        self.write(nodes, place, &list[place - 1])
    }

    // What the tree does with a place that is one of the line's: nothing is refused.
    fn write(
        &self,
        nodes: &mut [K::Cell],
        place: usize,
        station: &Station,
    ) -> Result<usize, Refusal>
        requires from { 1 ≤ place }
        requires to { place ≤ count_of self.now }
        requires nodes { node_count (height (count_of self.now)) ≤ length nodes.old }
        ensures done { result ≡ Ok (height (count_of self.now)) }
        ensures nodes { let o = K.Kind.ops self.now.tree.kind in
            Rewritten o (leaf (height (count_of self.now)) place) (o.single station.now) nodes.old nodes.new }
    {
        self.tree.write(nodes, place, station)
    }
}
