// The chain of runs over a semiring: a station's matrix is its step along the chain; and the unit matrix.
ghost use Rattle.std.specs.Prelude.{◌≡◌, ◌+◌, ◌*◌};
ghost use Rattle.matrix.specs.Chain.{station_code, station_matrix};
ghost use Rattle.matrix.specs.Matrix.{delta, unit_matrix};

use crate::grid::Matrix;
use crate::threshold::Threshold;
use semiring::Semiring;

#[derive(Clone, Copy)]
pub struct Chain<S> {
    pub semiring: S,
    pub threshold: Threshold,
}

impl<S: Semiring> Chain<S> {
    // What a station's matrix has in row i and column j: its weights where it leads, zero elsewhere.
    #[tactic(auto, unfolding(crate::specs::Chain::station_code))]
    fn station_code(&self, up: u64, down: u64, i: usize, j: usize) -> u64
        ensures { result ≡ station_code (S.Semiring.ops self.now.semiring) self.now.threshold.k up down i j }
    {
        if j == self.threshold.after_up(i) {
            up
        } else if j == self.threshold.after_down(i) {
            down
        } else {
            self.semiring.zero()
        }
    }

    // What the unit matrix has there: one on the diagonal, zero elsewhere.
    #[tactic(auto, unfolding(crate::specs::Matrix::delta))]
    fn unit_code(&self, i: usize, j: usize) -> u64
        ensures { result ≡ delta (S.Semiring.ops self.now.semiring) i j }
    {
        if i == j {
            self.semiring.one()
        } else {
            self.semiring.zero()
        }
    }

    // The matrix of a station with an up weight and a down weight.
    pub fn station(&self, up: u64, down: u64) -> Matrix
        ensures { result ≡ station_matrix (S.Semiring.ops self.now.semiring) self.now.threshold.k up down }
    {
        Matrix::from_fn(
            self.threshold.width(),
            |i, j| self.station_code(up, down, i, j),
        )
    }

    // The unit matrix.
    pub fn unit(&self) -> Matrix
        ensures { result ≡ unit_matrix (S.Semiring.ops self.now.semiring) (2 * self.now.threshold.k + 1) }
    {
        Matrix::from_fn(self.threshold.width(), |i, j| self.unit_code(i, j))
    }
}
