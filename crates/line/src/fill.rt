// A filling line's calls: new, add, close.
ghost use Rattle.std.specs.Prelude.{◌≡◌, ◌+◌, ◌-◌, ◌^◌, ◌<◌, List, length, take, None, IfOk, OnOk, OnErr};
ghost use Rattle.refusal.specs.Refusals.{by_number_as, answered};
ghost use Rattle.station.specs.declared.record.Station.{Station};
ghost use Rattle.tree.specs.Shape.{height, node_count};
ghost use Rattle.tree.specs.Nodes.{StandsFor, SameBehind};
ghost use Rattle.line.specs.declared.rooms.Rooms.{Rooms};
ghost use Rattle.line.specs.View.{Heard, silence, made};
ghost use Rattle.line.specs.Refused.{add_refusal, close_refusal};
ghost use Rattle.line.specs.Replies.{reply_of, close_reply};
ghost use Rattle.line.specs.Calls.{AddCall, CloseCall};
ghost use Rattle.line.specs.Agreement.{Fills};
ghost use Rattle.line.specs.Due.{Follows, LeftByClose};

use crate::lines::{Filling, Standing};
use crate::request::Request;
use crate::values::Values;
use kind::Kind;
use refusal::Refusal;
use station::record::Station;
use tree::shape::MOST_STATIONS;
use tree::tree::Tree;

impl<K: Kind> Filling<K> {
    // A line with no station.
    pub fn new(kind: K) -> Filling<K>
        ensures kind { result.kind ≡ kind }
        ensures none { result.stations ≡ 0 }
        ensures law { (list : List Station) → Fills (K.Kind.ops kind) silence result list }
    {
        Filling { kind, stations: 0 }
    }

    // One station more, whose record is written behind those of the others. Answers how many they are then.
    pub fn add(
        &mut self,
        list: &mut [Station],
        label: &[u8],
        values: Values,
    ) -> Result<usize, Refusal>
        ensures call { AddCall (K.Kind.ops self.old.kind) label.now values self.old list.old result self.new list.new }
        ensures law { let o = K.Kind.ops self.old.kind in (h : Heard) (rooms : Rooms) → rooms.list ≡ length list.old → Fills o h self.old list.old
            → Follows o (K.Kind.meaning self.old.kind) rooms h (Request.Add label.entry values) (reply_of result)
            (λ after. Fills o after self.new list.new) }
    {
        self.do_add(list, label, values)
    }

    // What `add` does. The record goes into the list once it has passed each test.
    pub(crate) fn do_add(
        &mut self,
        list: &mut [Station],
        label: &[u8],
        values: Values,
    ) -> Result<usize, Refusal>
        ensures { AddCall (K.Kind.ops self.old.kind) label.now values self.old list.old result self.new list.new }
    {
        let station = self.check_add(list.len(), label, values)?;
        list[self.stations] = station;
        self.stations += 1;
        Ok(self.stations)
    }

    // Tests an add to a list with so much room, and answers the record that it makes.
    fn check_add(&self, room: usize, label: &[u8], values: Values) -> Result<Station, Refusal>
        ensures answer { let n = self.now.stations in
            by_number_as (λ _. n + 1) result ≡ answered (add_refusal (K.Kind.ops self.now.kind) n room label.now (made label.now values)) (n + 1) }
        ensures made { IfOk result (λ x. x ≡ made label.now values) }
        ensures room { OnOk result ((self.now.stations < 4096) × (self.now.stations < room)) }
    {
        if self.stations >= MOST_STATIONS {
            return Err(Refusal::TooManyStations);
        }
        if room <= self.stations {
            return Err(Refusal::SpaceTooShort);
        }
        let station = Station::new(label, values.status, values.up, values.down)?;
        if !self.kind.takes(&station) {
            return Err(Refusal::NotTaken);
        }
        Ok(station)
    }

    // Fills the nodes with the stations, and answers how many joins that took. A refused close gives the filling line back.
    pub fn close(
        self,
        list: &[Station],
        nodes: &mut [K::Cell],
    ) -> Result<(Standing<K>, usize), (Filling<K>, Refusal)>
        ensures call { CloseCall (K.Kind.ops self.kind) self list.now nodes.old result nodes.new }
        ensures law { let o = K.Kind.ops self.kind in (h : Heard) (rooms : Rooms) → rooms.list ≡ length list.now
            → rooms.nodes ≡ length nodes.old → Fills o h self list.now
            → Follows o (K.Kind.meaning self.kind) rooms h Request.Close (close_reply result) (LeftByClose o list.now nodes.new result) }
    {
        self.do_close(list, nodes)
    }

    // What `close` does.
    pub(crate) fn do_close(
        self,
        list: &[Station],
        nodes: &mut [K::Cell],
    ) -> Result<(Standing<K>, usize), (Filling<K>, Refusal)>
        ensures { CloseCall (K.Kind.ops self.kind) self list.now nodes.old result nodes.new }
    {
        match self.fill_tree(list, nodes) {
            Ok((tree, joins)) => Ok((Standing::new(tree), joins)),
            Err(refusal) => Err((self, refusal)),
        }
    }

    // The tree over the stations. Filling it tests first whether there is a station (7); no list is too short for none, so 7 still comes first.
    fn fill_tree(
        &self,
        list: &[Station],
        nodes: &mut [K::Cell],
    ) -> Result<(Tree<K>, usize), Refusal>
        ensures answer { by_number_as (λ r. r.1) result
            ≡ answered (close_refusal self.now.stations (length list.now) (length nodes.old)) (2 ^ height self.now.stations - 1) }
        ensures tree { IfOk result (λ r. (r.0.kind ≡ self.now.kind) × (r.0.shape.stations ≡ self.now.stations)) }
        ensures refused { OnErr result (nodes.new ≡ nodes.old) }
        ensures stands { OnOk result (StandsFor (K.Kind.ops self.now.kind) (take self.now.stations list.now) nodes.new) }
        ensures behind { OnOk result (SameBehind (node_count (height self.now.stations)) nodes.old nodes.new) }
    {
        let stations = list.get(..self.stations).ok_or(Refusal::SpaceTooShort)?;
        Tree::fill(self.kind, stations, nodes)
    }
}

impl<K: Kind> Standing<K> {
    // A line over a filled tree, with no trial open.
    fn new(tree: Tree<K>) -> Standing<K>
        ensures { result ≡ record { tree = tree; trial = None } }
    {
        Standing { tree, trial: None }
    }
}
