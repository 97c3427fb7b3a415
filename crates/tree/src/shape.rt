// The shape of a tree: how many stations it has, and with that its height and its nodes.
ghost use Rattle.std.specs.Prelude.{◌≡◌, ◌+◌, ◌^◌, ◌≤◌, OnOk, IfOk, count_ones};
ghost use Rattle.refusal.specs.Refusals.{by_number, by_number_as, answered};
ghost use Rattle.tree.specs.Shape.{height, node_count, IsHeight, leaf, shape_refusal};
ghost use Rattle.tree.specs.Refused.{room_refusal, place_refusal, window_refusal};

use crate::leaves::Leaves;
use refusal::Refusal;

// As many stations as a line has room for.
pub const MOST_STATIONS: usize = 4096;

#[derive(Clone, Copy, PartialEq, Eq, Debug)]
pub struct Shape {
    pub stations: usize,
    ghost some: { 1 ≤ stations },
    ghost few: { stations ≤ 4096 },
}

// The shape for a number of stations, none and too many refused.
impl TryFrom<usize> for Shape {
    type Error = Refusal;

    ghost try_from_gives = { λ n r. by_number_as (λ s. s.stations) r ≡ answered (shape_refusal n) n };

    fn try_from(n: usize) -> Result<Shape, Refusal> {
        match n {
            0 => Err(Refusal::NoStation),
            1..=MOST_STATIONS => Ok(Shape { stations: n }),
            _ => Err(Refusal::TooManyStations),
        }
    }
}

impl Shape {
    // The least h with 2^h at least the number of stations.
    #[tactic(auto, using(crate::proofs::Heights::leading_value))]
    pub fn height(self) -> u32
        ensures value { result ≡ height self.stations }
        ensures least { IsHeight self.stations (height self.stations) }
    {
        usize::BITS - (self.stations - 1).leading_zeros()
    }

    // How many leaves: 2^h.
    #[tactic(auto, using(crate::proofs::Heights::height_small, crate::proofs::Heights::leaves_shift))]
    pub fn leaves(self) -> usize
        ensures { result ≡ 2 ^ height self.stations }
    {
        1 << self.height()
    }

    // How many nodes.
    #[tactic(auto, using(crate::proofs::Heights::height_small, crate::proofs::Heights::leaves_few))]
    pub fn nodes(self) -> usize
        ensures { result ≡ node_count (height self.stations) }
    {
        2 * self.leaves() - 1
    }

    // The node that is the leaf of a place.
    #[tactic(auto, using(crate::proofs::Heights::leaves_few))]
    pub(crate) fn leaf(self, place: usize) -> usize
        requires { place ≤ 4096 }
        ensures { result ≡ leaf (height self.stations) place }
    {
        self.leaves() + place - 1
    }

    // How many joins the answer of all places takes: one less than the number of stations has one bits.
    #[tactic(auto, using(crate::proofs::BlockCounts::ones_some))]
    pub(crate) fn joins_of_all(self) -> usize
        ensures { result + 1 ≡ count_ones self.stations }
    {
        self.stations.count_ones() as usize - 1
    }

    // The leaves of a window.
    #[tactic(auto, using(crate::proofs::Heights::leaves_few))]
    pub(crate) fn window(self, first: usize, last: usize) -> Leaves
        requires from { first ≤ 4096 }
        requires to { last ≤ 4096 }
        ensures from { result.from ≡ leaf (height self.stations) first }
        ensures to { result.to ≡ leaf (height self.stations) last + 1 }
    {
        Leaves {
            from: self.leaf(first),
            to: self.leaf(last) + 1,
        }
    }

    // Refuses too few nodes.
    pub(crate) fn check_room(self, nodes: usize) -> Result<(), Refusal>
        ensures answer { by_number result ≡ answered (room_refusal self.stations nodes) tt }
        ensures passed { OnOk result (node_count (height self.stations) ≤ nodes) }
    {
        if nodes < self.nodes() {
            return Err(Refusal::SpaceTooShort);
        }
        Ok(())
    }

    // Refuses too few nodes, and then a window that is not one of the line's.
    pub(crate) fn check(self, nodes: usize, first: usize, last: usize) -> Result<(), Refusal>
        ensures answer { by_number result ≡ answered (window_refusal self.stations nodes first last) tt }
        ensures passed { OnOk result ((node_count (height self.stations) ≤ nodes) × (1 ≤ first) × (first ≤ last) × (last ≤ self.stations)) }
    {
        self.check_room(nodes)?;
        if first < 1 || last < first || self.stations < last {
            return Err(Refusal::OutsideLine);
        }
        Ok(())
    }

    // The leaf of a place. Refuses too few nodes, and then a place that is not one of the line's.
    pub(crate) fn check_place(self, nodes: usize, place: usize) -> Result<usize, Refusal>
        ensures answer { let h = height self.stations in by_number_as (λ _. h) result ≡ answered (place_refusal self.stations nodes place) h }
        ensures passed { OnOk result ((node_count (height self.stations) ≤ nodes) × (1 ≤ place) × (place ≤ self.stations)) }
        ensures leaf { IfOk result (λ i. i ≡ leaf (height self.stations) place) }
    {
        self.check(nodes, place, place)?;
        Ok(self.leaf(place))
    }
}
