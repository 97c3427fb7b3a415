// The tree of a line: its kind and its shape. It has no memory of its own, since each call is handed the nodes.
ghost use Rattle.std.specs.Prelude.{◌≡◌, List, ◌+◌, ◌-◌, ◌^◌, ◌≤◌, length, OnOk, OnErr, IfOk, count_ones};
ghost use Rattle.refusal.specs.Refusals.{by_number_as, by_number, answered};
ghost use Rattle.tree.specs.Shape.{height, leaf, node_count};
ghost use Rattle.tree.specs.Blocks.{blocks};
ghost use Rattle.tree.specs.Nodes.{StandsFor, SameTo, SameBehind, Rewritten, WriteLaws};
ghost use Rattle.tree.specs.Gathered.{window_joining, as_joining, WindowLaws};
ghost use Rattle.tree.specs.Refused.{fill_refusal, place_refusal, window_refusal, room_refusal};

use crate::fill::{rejoin_all, rewrite, write_empty, write_stations};
use crate::gather::gather_under;
use crate::gathered::{Gathered, Joining};
use crate::shape::Shape;
use kind::Kind;
use refusal::Refusal;
use station::record::Station;

#[derive(Clone, Copy)]
pub struct Tree<K> {
    pub kind: K,
    pub shape: Shape,
}

impl<K: Kind> Tree<K> {
    // Fills the nodes with the stations, and answers their tree and how many joins that took.
    #[tactic(auto, using(crate::proofs::Standing::same_nodes))]
    pub fn fill(
        kind: K,
        stations: &[Station],
        nodes: &mut [K::Cell],
    ) -> Result<(Tree<K>, usize), Refusal>
        ensures answer { let n = length stations.now in by_number_as (λ r. r.1) result ≡ answered (fill_refusal n (length nodes.old)) (2 ^ height n - 1) }
        ensures tree { IfOk result (λ r. (r.0.kind ≡ kind) × (r.0.shape.stations ≡ length stations.now)) }
        ensures refused { OnErr result (nodes.new ≡ nodes.old) }
        ensures stands { OnOk result (StandsFor (K.Kind.ops kind) stations.now nodes.new) }
        ensures anew { let n = length stations.now in
            OnOk result ((other : List K.Cell) → StandsFor (K.Kind.ops kind) stations.now other → SameTo (node_count (height n)) nodes.new other) }
        ensures behind { OnOk result (SameBehind (node_count (height (length stations.now))) nodes.old nodes.new) }
    {
        let shape = Shape::try_from(stations.len())?;
        shape.check_room(nodes.len())?;
        let tree = Tree { kind, shape };
        let joins = tree.fill_nodes(stations, nodes);
        Ok((tree, joins))
    }

    // Fills nodes that there are enough of, and answers how many joins that took.
    #[tactic(auto, using(crate::proofs::Heights::leaves_few, crate::proofs::Heights::stations_fit))]
    fn fill_nodes(&self, stations: &[Station], nodes: &mut [K::Cell]) -> usize
        requires stations { self.now.shape.stations ≡ length stations.now }
        requires room { node_count (height (length stations.now)) ≤ length nodes.old }
        ensures joins { result ≡ 2 ^ height (length stations.now) - 1 }
        ensures stands { StandsFor (K.Kind.ops self.now.kind) stations.now nodes.new }
        ensures behind { SameBehind (node_count (height (length stations.now))) nodes.old nodes.new }
    {
        let leaves = self.shape.leaves();
        write_stations(&self.kind, stations, nodes, leaves);
        write_empty(&self.kind, nodes, leaves + stations.len(), 2 * leaves);
        rejoin_all(&self.kind, nodes, leaves)
    }

    // Writes the leaf of a place with a station's element, rejoins the nodes above it, and answers how many joins that took. What the
    // nodes hold besides is used as it stands.
    #[tactic(auto, using(crate::proofs::Heights::leaves_few, crate::proofs::Heights::stations_fit, crate::proofs::Halving::place_way_up, crate::proofs::Standing::write_laws))]
    pub fn write(
        &self,
        nodes: &mut [K::Cell],
        place: usize,
        station: &Station,
    ) -> Result<usize, Refusal>
        ensures answer { let n = self.now.shape.stations in by_number result ≡ answered (place_refusal n (length nodes.old) place) (height n) }
        ensures refused { OnErr result (nodes.new ≡ nodes.old) }
        ensures written { let o = K.Kind.ops self.now.kind in
            OnOk result (Rewritten o (leaf (height self.now.shape.stations) place) (o.single station.now) nodes.old nodes.new) }
        ensures laws { OnOk result (WriteLaws (K.Kind.ops self.now.kind) self.now.shape.stations place station.now nodes.old nodes.new) }
    {
        let leaf = self.shape.check_place(nodes.len(), place)?;
        Ok(rewrite(&self.kind, nodes, leaf, station))
    }

    // Joins the nodes of the window's largest whole blocks from left to right, whatever they hold.
    pub fn gather(
        &self,
        nodes: &[K::Cell],
        first: usize,
        last: usize,
    ) -> Result<Gathered<K::Element>, Refusal>
        ensures answer { let n = self.now.shape.stations in let o = K.Kind.ops self.now.kind in
            by_number_as as_joining result ≡ answered (window_refusal n (length nodes.now) first last) (window_joining o n nodes.now first last) }
        ensures laws { IfOk result (WindowLaws (K.Kind.ops self.now.kind) self.now.shape.stations nodes.now first last) }
    {
        self.shape.check(nodes.len(), first, last)?;
        self.window_joining(nodes, first, last).finish()
    }

    // The same of all places. How many joins that takes is told by the number of stations: one less than it has one bits.
    #[tactic(auto, using(crate::proofs::BlockCounts::whole_ones))]
    pub fn gather_all(&self, nodes: &[K::Cell]) -> Result<Gathered<K::Element>, Refusal>
        ensures answer { let n = self.now.shape.stations in
            by_number_as as_joining result ≡ answered (room_refusal n (length nodes.now)) (window_joining (K.Kind.ops self.now.kind) n nodes.now 1 n) }
        ensures laws { let n = self.now.shape.stations in IfOk result (WindowLaws (K.Kind.ops self.now.kind) n nodes.now 1 n) }
        ensures told { let n = self.now.shape.stations in IfOk result (λ g. g.joins + 1 ≡ count_ones n) }
        ensures ones { let n = self.now.shape.stations in OnOk result (length (blocks (height n) 1 n) ≡ count_ones n) }
    {
        let Gathered { element, .. } = self.gather(nodes, 1, self.shape.stations)?;
        Ok(Gathered {
            element,
            joins: self.shape.joins_of_all(),
        })
    }

    // The window's blocks, joined.
    #[tactic(auto, using(crate::proofs::Heights::leaves_few, crate::proofs::Heights::height_small))]
    fn window_joining(&self, nodes: &[K::Cell], first: usize, last: usize) -> Joining<K::Element>
        requires room { node_count (height self.now.shape.stations) ≤ length nodes.now }
        requires from { first ≤ 4096 }
        requires to { last ≤ 4096 }
        ensures { result ≡ window_joining (K.Kind.ops self.now.kind) self.now.shape.stations nodes.now first last }
    {
        let window = self.shape.window(first, last);
        let height = self.shape.height();
        let mut joining = Joining::nothing();
        gather_under(&self.kind, nodes, window, 1, height, &mut joining);
        joining
    }
}
