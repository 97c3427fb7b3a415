// Kinds: what a line's figures are about. The interface, runs, weights over any semiring, and a stretch's figures.
#![tactic(auto)]

ghost use Rattle.std.specs.Prelude.{◌≡◌};
ghost use Rattle.kind.specs.Laws.{KindOps, KindLaws};
ghost use Rattle.kind.specs.Meaning.{Meaning, Meant, WindowSays, RingSays};

pub mod figures;
pub mod runs;
pub mod stretch;
pub mod summary;
pub mod weights;

use figures::Figures;
use station::record::Station;

// A kind is a value, and each of its functions is fixed by that value and the arguments.
pub trait Kind: Copy {
    // What stands for a stretch of stations.
    type Element: Copy;
    // What a node holds for an element: plain, so that any memory is one.
    type Cell: Copy;

    ghost ops: { Self → KindOps Self.Element Self.Cell };

    // What the figures say of a list of stations, in the subject's words. No code computes it.
    ghost meaning: { Self → Meaning };

    // Whether the kind takes the record.
    fn takes(&self, station: &Station) -> bool
        ensures { result ≡ (ops self.now).takes station.now };

    // The element of one station.
    fn single(&self, station: &Station) -> Self::Element
        ensures { result ≡ (ops self.now).single station.now };

    // The element of no station.
    fn empty(&self) -> Self::Element
        ensures { result ≡ (ops self.now).empty };

    // The element of two stretches, the left one first.
    fn join(&self, left: &Self::Element, right: &Self::Element) -> Self::Element
        ensures { result ≡ (ops self.now).join left.now right.now };

    // A node's cell for an element, and what any cell stands for. No From, since it is the kind, a value, that says so.
    fn to_cell(&self, element: &Self::Element) -> Self::Cell
        ensures { result ≡ (ops self.now).cell element.now };

    fn from_cell(&self, cell: &Self::Cell) -> Self::Element
        ensures { result ≡ (ops self.now).element cell.now };

    fn window_figures(&self, element: &Self::Element) -> Figures
        ensures value { result ≡ (ops self.now).window element.now }
        ensures says { WindowSays (ops self.now) (meaning self.now) element.now result };

    fn ring_figures(&self, element: &Self::Element) -> Figures
        ensures value { result ≡ (ops self.now).ring element.now }
        ensures says { RingSays (ops self.now) (meaning self.now) element.now result };

    // How many stations the shortest ring has.
    fn shortest_ring(&self) -> usize
        ensures { result ≡ (ops self.now).shortest };

    ghost lawful: { (k : Self) → KindLaws (ops k) };

    ghost meant: { (k : Self) → Meant (ops k) (meaning k) };
}
