// The figures of a matrix, for a window and for the ring.
ghost use Rattle.std.specs.Prelude.{◌≡◌, ◌+◌, ◌≤◌, slice_index};
ghost use Rattle.std.specs.List.{range_with_len};
ghost use Rattle.semiring.specs.Algebra.{sum_over};
ghost use Rattle.matrix.specs.Chain.{failing_of, working_of, ring_failing_of, ring_working_of};
ghost use Rattle.matrix.specs.Matrix.{at};

use crate::chain::Chain;
use crate::grid::Matrix;
use semiring::{Semiring, sum_all};

impl<S: Semiring> Chain<S> {
    // The sum of what a row has from a column on: count codes.
    #[tactic(auto, using(crate::proofs::Rows::stretch_sum))]
    fn row_sum(&self, row: &[u64; 9], column: usize, count: usize) -> u64
        requires { column + count ≤ 9 }
        ensures { result ≡ sum_over (S.Semiring.ops self.now.semiring) (λ r. slice_index row.now (column + r)) (range_with_len 0 count) }
    {
        sum_all(&self.semiring, &row[column..column + count])
    }

    // The sum of what the diagonal has that begins in row 0 at a column: count codes. A loop, which needs no answer: a fold over
    // numbered rows is as long, and needs a lemma and an answer by hand.
    fn diagonal_sum(&self, m: &Matrix, column: usize, count: usize) -> u64
        requires { column + count ≤ 9 }
        ensures { result ≡ sum_over (S.Semiring.ops self.now.semiring) (λ j. at m.now j (column + j)) (range_with_len 0 count) }
    {
        let mut total = self.semiring.zero();
        for (j, row) in m.rows[..count].iter().enumerate() {
            total = self.semiring.sum(total, row[column + j]);
        }
        total
    }

    // What row 0 has from column k on: a run of k was seen.
    pub fn failing(&self, m: &Matrix) -> u64
        ensures { result ≡ failing_of (S.Semiring.ops self.now.semiring) self.now.threshold.k m.now }
    {
        let k = self.threshold.k;
        self.row_sum(&m.rows[0], k, k + 1)
    }

    // What row 0 has before column k: no run of k was seen.
    pub fn working(&self, m: &Matrix) -> u64
        ensures { result ≡ working_of (S.Semiring.ops self.now.semiring) self.now.threshold.k m.now }
    {
        self.row_sum(&m.rows[0], 0, self.threshold.k)
    }

    // On the ring: a state whose run at the end is j, below k, counts in row j, as if that run stood before the first station; one with
    // k or more in row 0.
    pub fn ring_failing(&self, m: &Matrix) -> u64
        ensures { result ≡ ring_failing_of (S.Semiring.ops self.now.semiring) self.now.threshold.k m.now }
    {
        let k = self.threshold.k;
        let across = self.diagonal_sum(m, k, k);
        self.semiring.sum(m.rows[0][2 * k], across)
    }

    // On the ring: a state whose run at the end is j counts in row j, and comes back to j where no run has k.
    pub fn ring_working(&self, m: &Matrix) -> u64
        ensures { result ≡ ring_working_of (S.Semiring.ops self.now.semiring) self.now.threshold.k m.now }
    {
        self.diagonal_sum(m, 0, self.threshold.k)
    }
}
