// The product of two matrices, a row at a time, at a width that is known when it is compiled.
ghost use Rattle.std.specs.Prelude.{◌≡◌, ℕ, ◌+◌, ◌*◌, ◌<◌, ◌≤◌, if◌then◌else◌, true, nat_lt, replicate, slice_index};
ghost use Rattle.matrix.specs.Matrix.{at, row, row_entry, matrix_product, PlainRow, AllPlain};

use crate::chain::Chain;
use crate::grid::Matrix;
use crate::stepwise::Stepwise;
use semiring::Semiring;

// The totals of a row of the product, one for each used column.
#[derive(Clone, Copy)]
struct Totals<const W: usize> {
    sums: [u64; W],
    ghost narrow: { W ≤ 9 },
}

impl<S: Semiring> Chain<S> {
    // Adds x times row l of b to the totals. Here and below the second list is read by index: zipped with one that is written, the
    // check knows nothing of what the loop leaves.
    fn add_row<const W: usize>(&self, x: u64, b: &Matrix, l: usize, totals: &mut Totals<W>)
        requires place { l < 9 }
        requires plain { S.Semiring.plain self.now.semiring x ≡ true }
        requires plain_row { PlainRow (S.Semiring.plain self.now.semiring) W (row b.now l) }
        requires room { (q : ℕ) → q < W → slice_index totals.now.sums q ≤ 9 * S.Semiring.growth self.now.semiring }
        ensures within { (q : ℕ) → q < W
            → slice_index totals.new.sums q ≤ slice_index totals.old.sums q + S.Semiring.growth self.now.semiring }
        ensures adds { (q : ℕ) → q < W → S.Semiring.code self.now.semiring (slice_index totals.new.sums q)
            ≡ (S.Semiring.ops self.now.semiring).sum (S.Semiring.code self.now.semiring (slice_index totals.old.sums q))
            ((S.Semiring.ops self.now.semiring).product x (at b.now l q)) }
    {
        for (j, total) in totals.sums.iter_mut().enumerate() {
            *total = self.semiring.plus_product(*total, x, b.rows[l][j]);
        }
    }

    // The codes of the totals, and 0 behind them.
    fn settle_row<const W: usize>(&self, totals: &Totals<W>) -> [u64; 9]
        ensures { (q : ℕ) → q < 9 → slice_index result q ≡ (if nat_lt q W then S.Semiring.code self.now.semiring (slice_index totals.now.sums q) else 0) }
    {
        let mut row = [0; 9];
        for (j, code) in row[..W].iter_mut().enumerate() {
            *code = self.semiring.settle(totals.sums[j]);
        }
        row
    }

    // A row of the product, with 0 behind its used codes. A left code that adds nothing is passed over.
    fn row_product<const W: usize>(&self, left: &[u64; 9], b: &Matrix) -> [u64; 9]
        requires narrow { W ≤ 9 }
        requires plain_left { PlainRow (S.Semiring.plain self.now.semiring) W left.now }
        requires plain_right { AllPlain (S.Semiring.plain self.now.semiring) W b.now }
        ensures { (q : ℕ) → q < 9 → slice_index result q ≡ (if nat_lt q W then row_entry (S.Semiring.ops self.now.semiring) W left.now b.now q else 0) }
    {
        let mut totals = Totals {
            sums: [self.semiring.zero(); W],
        };
        for (l, &x) in left[..W].iter().enumerate() {
            if !self.semiring.adds_nothing(x) {
                self.add_row(x, b, l, &mut totals);
            }
        }
        self.settle_row(&totals)
    }

    // Writes the product at the width W over a matrix of nothing but 0.
    fn write_rows<const W: usize>(&self, a: &Matrix, b: &Matrix, out: &mut Matrix)
        requires narrow { W ≤ 9 }
        requires plain_left { AllPlain (S.Semiring.plain self.now.semiring) W a.now }
        requires plain_right { AllPlain (S.Semiring.plain self.now.semiring) W b.now }
        ensures { out.old.rows ≡ replicate 9 (replicate 9 0) → out.new ≡ matrix_product (S.Semiring.ops self.now.semiring) W a.now b.now }
    {
        for (i, row) in out.rows[..W].iter_mut().enumerate() {
            *row = self.row_product::<W>(&a.rows[i], b);
        }
    }

    // Whether the used codes of a row are plain. All are tested, since a test with no way out takes no longer than one that ends sooner.
    fn is_plain_row<const W: usize>(&self, row: &[u64; 9]) -> bool
        requires { W ≤ 9 }
        ensures { result ≡ true → PlainRow (S.Semiring.plain self.now.semiring) W row.now }
    {
        let mut all = true;
        for &code in row[..W].iter() {
            all &= self.semiring.is_plain(code);
        }
        all
    }

    fn is_plain<const W: usize>(&self, m: &Matrix) -> bool
        requires { W ≤ 9 }
        ensures { result ≡ true → AllPlain (S.Semiring.plain self.now.semiring) W m.now }
    {
        for row in m.rows[..W].iter() {
            if !self.is_plain_row::<W>(row) {
                return false;
            }
        }
        true
    }

    // The same chain, for any codes.
    fn stepwise(&self) -> Chain<Stepwise<S>>
        ensures { result.semiring.semiring ≡ self.now.semiring }
    {
        Chain {
            semiring: Stepwise {
                semiring: self.semiring,
            },
            threshold: self.threshold,
        }
    }

    // Writes the product at the width W over a matrix of nothing but 0. The codes of a line are plain. Kept a call, so that the matrix is
    // written where it is wanted, and not copied there.
    #[inline(never)]
    fn write_product<const W: usize>(&self, a: &Matrix, b: &Matrix, out: &mut Matrix)
        requires { W ≤ 9 }
        ensures { out.old.rows ≡ replicate 9 (replicate 9 0) → out.new ≡ matrix_product (S.Semiring.ops self.now.semiring) W a.now b.now }
    {
        if self.is_plain::<W>(a) && self.is_plain::<W>(b) {
            self.write_rows::<W>(a, b, out);
        } else {
            self.stepwise().write_rows::<W>(a, b, out);
        }
    }

    // The product of the used codes, left times right, with 0 in the others. Each k has a width that is known when it is compiled:
    // with one that is not, counts and costs took 1.5 to 2 times as long.
    pub fn join(&self, a: &Matrix, b: &Matrix) -> Matrix
        ensures { result ≡ matrix_product (S.Semiring.ops self.now.semiring) (2 * self.now.threshold.k + 1) a.now b.now }
    {
        let mut product = Matrix { rows: [[0; 9]; 9] };
        match self.threshold.k {
            1 => self.write_product::<3>(a, b, &mut product),
            2 => self.write_product::<5>(a, b, &mut product),
            3 => self.write_product::<7>(a, b, &mut product),
            _ => self.write_product::<9>(a, b, &mut product),
        }
        product
    }
}
