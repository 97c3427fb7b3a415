// What a standing line tests before it does anything, each test in the order of the checks.
ghost use Rattle.std.specs.Prelude.{◌≡◌, ◌<◌, ◌≤◌, true, not, ◌&&◌, OnOk, false, IfOk, length, take, nat_le};
ghost use Rattle.std.specs.List.{list_any};
ghost use Rattle.refusal.specs.Refusals.{by_number, by_number_as, answered};
ghost use Rattle.tree.specs.Shape.{height, node_count};
ghost use Rattle.tree.specs.Refused.{no_window};
ghost use Rattle.line.specs.State.{count_of, entries_of, in_trial};
ghost use Rattle.line.specs.Refused.{rooms_refusal, set_refusal, back_refusal, ring_refusal, takes_at, cannot_put, any_bad};

use crate::lines::Standing;
use crate::rooms::Rooms;
use crate::values::{Entry, Values};
use kind::Kind;
use refusal::Refusal;
use station::record::Station;

impl<K: Kind> Standing<K> {
    // How many stations stand.
    pub(crate) fn count(&self) -> usize
        ensures { result ≡ count_of self.now }
    {
        self.tree.shape.stations
    }

    // How many entries the trial has; none outside a trial.
    pub(crate) fn entries(&self) -> usize
        ensures { result ≡ entries_of self.now.trial }
    {
        self.trial.unwrap_or(0)
    }

    // Refuses spaces that are too short.
    pub(crate) fn check_rooms(&self, rooms: Rooms) -> Result<(), Refusal>
        ensures answer { by_number result ≡ answered (rooms_refusal (count_of self.now) self.now.trial rooms) tt }
        ensures list { OnOk result (count_of self.now ≤ rooms.list) }
        ensures nodes { OnOk result (node_count (height (count_of self.now)) ≤ rooms.nodes) }
        ensures journal { OnOk result (entries_of self.now.trial ≤ rooms.journal) }
    {
        let n = self.count();
        if rooms.list < n
            || rooms.nodes < self.tree.shape.nodes()
            || rooms.journal < self.entries()
        {
            return Err(Refusal::SpaceTooShort);
        }
        Ok(())
    }

    // Whether the place is one of the line's.
    fn has(&self, place: usize) -> bool
        ensures { result ≡ not (no_window (count_of self.now) place place) }
    {
        1 <= place && place <= self.count()
    }

    // Tests a set.
    pub(crate) fn check_set(
        &self,
        list: &[Station],
        rooms: Rooms,
        place: usize,
        values: Values,
    ) -> Result<(), Refusal>
        requires { rooms.list ≡ length list.now }
        ensures answer { by_number_as (λ _. height (count_of self.now)) result
            ≡ answered (set_refusal (K.Kind.ops self.now.tree.kind) (count_of self.now) self.now.trial list.now rooms place values) (height (count_of self.now)) }
        ensures place { OnOk result ((1 ≤ place) × (place ≤ count_of self.now)) }
        ensures spaces { OnOk result ((count_of self.now ≤ rooms.list) × (node_count (height (count_of self.now)) ≤ rooms.nodes)) }
        ensures journal { OnOk result (in_trial self.now.trial ≡ true → entries_of self.now.trial < rooms.journal) }
    {
        self.check_rooms(rooms)?;
        if !self.has(place) {
            return Err(Refusal::OutsideLine);
        }
        if !self.takes_at(list, place, values) {
            return Err(Refusal::NotTaken);
        }
        if self.is_full(rooms.journal) {
            return Err(Refusal::JournalFull);
        }
        Ok(())
    }

    // Whether the kind takes the record at a place with other values.
    fn takes_at(&self, list: &[Station], place: usize, values: Values) -> bool
        requires from { 1 ≤ place }
        requires to { place ≤ length list.now }
        ensures { result ≡ takes_at (K.Kind.ops self.now.tree.kind) list.now place values }
    {
        self.tree.kind.takes(&values.on(&list[place - 1]))
    }

    // Whether a trial is open, and a journal with so much room has none left for an entry.
    fn is_full(&self, journal: usize) -> bool
        ensures { result ≡ (in_trial self.now.trial && nat_le journal (entries_of self.now.trial)) }
    {
        self.trial.is_some() && journal <= self.entries()
    }

    // Whether an entry cannot be put back.
    fn is_bad(&self, list: &[Station], entry: &Entry) -> bool
        requires { count_of self.now ≤ length list.now }
        ensures { result ≡ cannot_put (K.Kind.ops self.now.tree.kind) (count_of self.now) list.now entry.now }
    {
        !self.has(entry.place) || !self.takes_at(list, entry.place, entry.values)
    }

    // Tests a back, and answers how many entries it puts back.
    pub(crate) fn check_back(
        &self,
        list: &[Station],
        rooms: Rooms,
        journal: &[Entry],
    ) -> Result<usize, Refusal>
        requires list { rooms.list ≡ length list.now }
        requires journal { rooms.journal ≡ length journal.now }
        ensures answer { let n = count_of self.now in
            let bad = any_bad (K.Kind.ops self.now.tree.kind) n list.now (take (entries_of self.now.trial) journal.now) in
            by_number result ≡ answered (back_refusal n self.now.trial rooms bad) (entries_of self.now.trial) }
        ensures spaces { OnOk result ((count_of self.now ≤ rooms.list) × (node_count (height (count_of self.now)) ≤ rooms.nodes)) }
        ensures entries { IfOk result (λ e. (e ≤ rooms.journal) × (e ≡ entries_of self.now.trial)) }
        ensures good { OnOk result (any_bad (K.Kind.ops self.now.tree.kind) (count_of self.now) list.now (take (entries_of self.now.trial) journal.now) ≡ false) }
    {
        let entries = self.trial.ok_or(Refusal::NoTrial)?;
        self.check_rooms(rooms)?;
        if self.any_bad(list, &journal[..entries]) {
            return Err(Refusal::BadEntry);
        }
        Ok(entries)
    }

    // Refuses spaces that are too short, and then too few stations for a ring.
    pub(crate) fn check_ring(&self, rooms: Rooms) -> Result<(), Refusal>
        ensures answer { by_number result ≡ answered (ring_refusal (K.Kind.ops self.now.tree.kind) (count_of self.now) self.now.trial rooms) tt }
        ensures nodes { OnOk result (node_count (height (count_of self.now)) ≤ rooms.nodes) }
    {
        self.check_rooms(rooms)?;
        if self.count() < self.tree.kind.shortest_ring() {
            return Err(Refusal::RingTooShort);
        }
        Ok(())
    }

    // Whether some entry cannot be put back.
    fn any_bad(&self, list: &[Station], entries: &[Entry]) -> bool
        requires { count_of self.now ≤ length list.now }
        ensures { result ≡ list_any (cannot_put (K.Kind.ops self.now.tree.kind) (count_of self.now) list.now) entries.now }
    {
        entries.iter().any(|entry| self.is_bad(list, entry))
    }
}
