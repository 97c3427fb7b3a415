// Semirings on codes: the interface, a list's sum and product, and the three that are shipped.
#![tactic(auto)]

ghost use Rattle.std.specs.Prelude.{◌≡◌, ℕ, ◌+◌, ◌*◌, ◌≤◌, Bool, true};
ghost use Rattle.semiring.specs.Algebra.{SemiringOps, SemiringLaws, sum_of, product_of};

pub mod costs;
pub mod counts;
pub mod reduced;
pub mod residues;

// A semiring is a value, as a modulus says which residues are meant. Codes are unsigned 64-bit numbers;
// given a code that is no member, sum and product answer zero. Product need not commute.
pub trait Semiring: Copy {
    ghost ops: { Self → SemiringOps };

    fn is_member(&self, x: u64) -> bool
        ensures { result ≡ (ops self.now).member x };

    fn zero(&self) -> u64
        ensures { result ≡ (ops self.now).zero };

    fn one(&self) -> u64
        ensures { result ≡ (ops self.now).one };

    fn sum(&self, x: u64, y: u64) -> u64
        ensures { result ≡ (ops self.now).sum x y };

    fn product(&self, x: u64, y: u64) -> u64
        ensures { result ≡ (ops self.now).product x y };

    // Which codes are seen to make any product zero from the left, so that they may be passed over.
    ghost idle: { Self → ℕ → Bool };

    fn adds_nothing(&self, x: u64) -> bool
        ensures idle { result ≡ idle self.now x }
        ensures zero { result ≡ true → (y : ℕ) → (ops self.now).product x y ≡ (ops self.now).zero };

    // A sum of products may be built as a total that is no member yet, so that a reduction can wait. These say which code a total stands
    // for, what a product makes of a total, how much it adds at most, and which codes are plain: those that need no test with each
    // product.
    ghost code: { Self → ℕ → ℕ };

    ghost added: { Self → ℕ → ℕ → ℕ → ℕ };

    ghost growth: { Self → ℕ };

    ghost plain: { Self → ℕ → Bool };

    fn is_plain(&self, x: u64) -> bool
        ensures { result ≡ plain self.now x };

    // The total with the product of two plain codes, if the total is small enough for it. From zero on, nine products can be added. Of
    // other codes, and of greater totals, it is known what is answered and not what that means.
    fn plus_product(&self, total: u64, x: u64, y: u64) -> u64
        ensures added { result ≡ added self.now total x y }
        ensures within { plain self.now x ≡ true → plain self.now y ≡ true → result ≤ total + growth self.now }
        ensures adds { plain self.now x ≡ true → plain self.now y ≡ true → total ≤ 9 * growth self.now
            → code self.now result ≡ (ops self.now).sum (code self.now total) ((ops self.now).product x y) };

    // The code that a total stands for.
    fn settle(&self, total: u64) -> u64
        ensures { result ≡ code self.now total };

    ghost lawful: { (s : Self) → SemiringLaws (ops s) };

    ghost starts: { (s : Self) → (code s (ops s).zero ≡ (ops s).zero) × ((ops s).zero ≤ growth s) };
}

// The sum of the codes, from zero, left to right.
pub fn sum_all<S: Semiring>(semiring: &S, codes: &[u64]) -> u64
    ensures { result ≡ sum_of (S.Semiring.ops semiring.now) codes.now }
{
    codes
        .iter()
        .fold(semiring.zero(), |total, code| semiring.sum(total, *code))
}

// The product of the codes, from one, left to right. Each of the two is one call of `fold`, which is what they share.
pub fn product_all<S: Semiring>(semiring: &S, codes: &[u64]) -> u64
    ensures { result ≡ product_of (S.Semiring.ops semiring.now) codes.now }
{
    codes.iter().fold(semiring.one(), |total, code| semiring.product(total, *code))
}
