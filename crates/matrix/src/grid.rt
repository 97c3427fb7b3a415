// The matrix: plain codes, whatever they are, so that a node can hold it.
ghost use Rattle.std.specs.Prelude.{◌≡◌, ℕ};
ghost use Rattle.matrix.specs.Matrix.{table_row, table};

// Nine rows of nine codes, used or not: of one size for every k, since nodes are fixed memory.
#[derive(Clone, Copy)]
pub struct Matrix {
    pub rows: [[u64; 9]; 9],
}

// Row i of the matrix that `from_fn` makes. Both are loops: `array::from_fn` over a generic closure is no shorter, as the closure then
// needs clauses of its own, and leaves goals that a loop does not.
#[tactic(auto, using(crate::proofs::Tables::is_row))]
fn row_from_fn<F: Fn(usize, usize) -> u64>(width: usize, i: usize, entry: &F) -> [u64; 9]
    requires { F.IsAlwaysCallable entry.now }
    ensures { (f : ℕ → ℕ → ℕ) → ((i j x : ℕ) → F.post entry.now i j x → x ≡ f i j) → result ≡ table_row width f i }
{
    let mut row = [0; 9];
    for (j, code) in row.iter_mut().enumerate() {
        if i < width && j < width {
            *code = entry(i, j);
        }
    }
    row
}

impl Matrix {
    // The matrix with these codes where row and column are below the width, and 0 elsewhere.
    #[tactic(auto, using(crate::proofs::Tables::is_rows))]
    pub(crate) fn from_fn<F: Fn(usize, usize) -> u64>(width: usize, entry: F) -> Matrix
        requires { F.IsAlwaysCallable entry }
        ensures { (f : ℕ → ℕ → ℕ) → ((i j x : ℕ) → F.post entry i j x → x ≡ f i j) → result ≡ table width f }
    {
        let mut rows = [[0; 9]; 9];
        for (i, row) in rows.iter_mut().enumerate() {
            *row = row_from_fn(width, i, &entry);
        }
        Matrix { rows }
    }
}
