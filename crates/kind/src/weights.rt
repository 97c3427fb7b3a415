// The kind of weights: failing and working figures over any semiring.
ghost use Rattle.std.specs.Prelude.{◌≡◌, IfOk};
ghost use Rattle.refusal.specs.Refusals.{by_number, by_number_as, answered};
ghost use Rattle.matrix.specs.Range.{threshold_refusal};
ghost use Rattle.kind.specs.Meaning.{WindowSays, RingSays, meant_window, meant_ring};
ghost use Rattle.kind.specs.Weights.{weights_kind, weights_meaning};
ghost use Rattle.kind.specs.WeightsMeant.{weights_lawful, weights_meant};

use crate::Kind;
use crate::figures::Figures;
use crate::stretch::{ring_of, window_of};
use matrix::chain::Chain;
use matrix::grid::Matrix;
use matrix::threshold::Threshold;
use refusal::Refusal;
use semiring::Semiring;
use station::record::Station;

#[derive(Clone, Copy)]
pub struct Weights<S> {
    pub chain: Chain<S>,
}

impl<S: Copy> Weights<S> {
    // The weights over a semiring, for a failure of k neighbours in a row, k from 1 to 4.
    pub fn new(semiring: S, k: u64) -> Result<Weights<S>, Refusal>
        ensures threshold { by_number_as (λ w. w.chain.threshold.k) result ≡ answered (threshold_refusal k) k }
        ensures semiring { IfOk result (λ w. w.chain.semiring ≡ semiring) }
    {
        let threshold = Threshold::try_from(k)?;
        Ok(Weights {
            chain: Chain {
                semiring,
                threshold,
            },
        })
    }
}

// Window and ring have other sums, and so a function each, of a stretch and of a matrix.
impl<S: Semiring> Weights<S> {
    // Both figures of a stretch: the sums of the weights of all its failing states, and of all others.
    pub fn window_of(&self, stations: &[Station]) -> Result<Figures, Refusal>
        ensures { by_number result ≡ meant_window (weights_kind (S.Semiring.ops self.now.chain.semiring) self.now.chain.threshold.k) (weights_meaning (S.Semiring.ops self.now.chain.semiring) self.now.chain.threshold.k) stations.now }
    {
        window_of(self, stations)
    }

    // The same around the ring.
    pub fn ring_of(&self, stations: &[Station]) -> Result<Figures, Refusal>
        ensures { by_number result ≡ meant_ring (weights_kind (S.Semiring.ops self.now.chain.semiring) self.now.chain.threshold.k) (weights_meaning (S.Semiring.ops self.now.chain.semiring) self.now.chain.threshold.k) stations.now }
    {
        ring_of(self, stations)
    }

    // The figures read off a matrix, each in a function that the search proves alone: a wrong sum is refused at its line.
    fn window(&self, m: &Matrix) -> Figures
        ensures { result ≡ (weights_kind (S.Semiring.ops self.now.chain.semiring) self.now.chain.threshold.k).window m.now }
    {
        Figures {
            first: self.chain.failing(m),
            second: self.chain.working(m),
        }
    }

    fn ring(&self, m: &Matrix) -> Figures
        ensures { result ≡ (weights_kind (S.Semiring.ops self.now.chain.semiring) self.now.chain.threshold.k).ring m.now }
    {
        Figures {
            first: self.chain.ring_failing(m),
            second: self.chain.ring_working(m),
        }
    }
}

impl<S: Semiring> Kind for Weights<S> {
    type Element = Matrix;

    type Cell = Matrix;

    ghost ops = { λ w. weights_kind (S.Semiring.ops w.chain.semiring) w.chain.threshold.k };

    ghost meaning = { λ w. weights_meaning (S.Semiring.ops w.chain.semiring) w.chain.threshold.k };

    ghost lawful = { λ w. weights_lawful (S.Semiring.ops w.chain.semiring) (S.Semiring.lawful w.chain.semiring) w.chain.threshold.k w.chain.threshold.high };

    ghost meant = { λ w. weights_meant (S.Semiring.ops w.chain.semiring) (S.Semiring.lawful w.chain.semiring) w.chain.threshold.k w.chain.threshold.low w.chain.threshold.high };

    fn takes(&self, station: &Station) -> bool {
        self.chain.semiring.is_member(station.up) && self.chain.semiring.is_member(station.down)
    }

    fn single(&self, station: &Station) -> Matrix {
        let up = station.up_weight(&self.chain.semiring);
        let down = station.down_weight(&self.chain.semiring);
        self.chain.station(up, down)
    }

    fn empty(&self) -> Matrix {
        self.chain.unit()
    }

    fn join(&self, left: &Matrix, right: &Matrix) -> Matrix {
        self.chain.join(left, right)
    }

    fn to_cell(&self, element: &Matrix) -> Matrix {
        *element
    }

    fn from_cell(&self, cell: &Matrix) -> Matrix {
        *cell
    }

    // Failing and working: the sums over all states of the stations that the matrix was joined from.
    fn window_figures(&self, element: &Matrix) -> Figures
        ensures value { result ≡ (weights_kind (S.Semiring.ops self.now.chain.semiring) self.now.chain.threshold.k).window element.now }
        ensures says { WindowSays (weights_kind (S.Semiring.ops self.now.chain.semiring) self.now.chain.threshold.k) (weights_meaning (S.Semiring.ops self.now.chain.semiring) self.now.chain.threshold.k) element.now result }
    {
        self.window(element)
    }

    fn ring_figures(&self, element: &Matrix) -> Figures
        ensures value { result ≡ (weights_kind (S.Semiring.ops self.now.chain.semiring) self.now.chain.threshold.k).ring element.now }
        ensures says { RingSays (weights_kind (S.Semiring.ops self.now.chain.semiring) self.now.chain.threshold.k) (weights_meaning (S.Semiring.ops self.now.chain.semiring) self.now.chain.threshold.k) element.now result }
    {
        self.ring(element)
    }

    fn shortest_ring(&self) -> usize {
        self.chain.threshold.k
    }
}
