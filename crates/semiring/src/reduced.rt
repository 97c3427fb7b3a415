// Whole numbers under a reduction: the one implementation for counts and residues.
ghost use Rattle.std.specs.Prelude.{◌≡◌, ℕ, ◌+◌, ◌*◌, ◌<◌, ◌≤◌, ◌==◌, Bool, true};
ghost use Rattle.semiring.specs.Models.{reduced};
ghost use Rattle.semiring.specs.Reduced.{Reduction, reduced_lawful, reduced_starts};

use crate::Semiring;

// Which numbers are members, and how another is made one. Members are small, so that their product is a 64-bit number.
pub trait Reduce: Copy {
    ghost member: { Self → ℕ → Bool };

    ghost reduction: { Self → ℕ → ℕ };

    fn is_reduced(&self, n: u64) -> bool
        ensures { result ≡ member self.now n };

    fn reduce(&self, n: u64) -> u64
        ensures { result ≡ reduction self.now n };

    // What a product of members adds to a total at most.
    ghost growth: { Self → ℕ };

    // What the product makes of a total.
    ghost added: { Self → ℕ → ℕ → ℕ → ℕ };

    // A number with the reduction of the total and the product together, of members and where the total is small enough.
    fn add_product(&self, total: u64, x: u64, y: u64) -> u64
        ensures added { result ≡ added self.now total x y }
        ensures within { member self.now x ≡ true → member self.now y ≡ true → result ≤ total + growth self.now }
        ensures same { member self.now x ≡ true → member self.now y ≡ true → total ≤ 9 * growth self.now
            → reduction self.now result ≡ reduction self.now (total + x * y) };

    ghost small: { (s : Self) (n : ℕ) → member s n ≡ true → n < 4294967296 };

    ghost lawful: { (s : Self) → Reduction (member s) (reduction s) };
}

impl<R: Reduce> Semiring for R {
    ghost ops = { λ r. reduced (R.Reduce.member r) (R.Reduce.reduction r) };

    ghost lawful = { λ r. reduced_lawful (R.Reduce.member r) (R.Reduce.reduction r) (R.Reduce.lawful r) };

    ghost code = { λ r. R.Reduce.reduction r };

    ghost idle = { λ _ x. x == 0 };

    ghost added = { λ r. R.Reduce.added r };

    ghost growth = { λ r. R.Reduce.growth r };

    ghost plain = { λ r. R.Reduce.member r };

    ghost starts = { λ r. reduced_starts (R.Reduce.member r) (R.Reduce.reduction r) (R.Reduce.lawful r) (R.Reduce.growth r) };

    fn is_member(&self, x: u64) -> bool {
        self.is_reduced(x)
    }

    fn zero(&self) -> u64 {
        0
    }

    fn one(&self) -> u64 {
        1
    }

    // Sum and product stay two: with the operation as a closure one function is longer, as it says when that may be called.
    fn sum(&self, x: u64, y: u64) -> u64 {
        if !self.is_reduced(x) || !self.is_reduced(y) {
            return 0;
        }
        self.reduce(x + y)
    }

    fn product(&self, x: u64, y: u64) -> u64 {
        if !self.is_reduced(x) || !self.is_reduced(y) {
            return 0;
        }
        self.reduce(x * y)
    }

    fn adds_nothing(&self, x: u64) -> bool {
        x == 0
    }

    fn is_plain(&self, x: u64) -> bool {
        self.is_member(x)
    }

    // The reduction waits until the total is settled.
    fn plus_product(&self, total: u64, x: u64, y: u64) -> u64 {
        self.add_product(total, x, y)
    }

    fn settle(&self, total: u64) -> u64 {
        self.reduce(total)
    }
}
