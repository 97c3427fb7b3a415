// A semiring's sums of products one step after the other, for codes of which products may not be added otherwise.
ghost use Rattle.std.specs.Prelude.{◌+◌, true};
ghost use Rattle.std.proofs.Common.{rules};

use semiring::Semiring;

// The same semiring, with codes for totals: each product is added in full, whatever the codes are.
#[derive(Clone, Copy)]
pub(crate) struct Stepwise<S> {
    pub(crate) semiring: S,
}

impl<S: Semiring> Semiring for Stepwise<S> {
    ghost ops = { λ s. S.Semiring.ops s.semiring };

    ghost code = { λ _ t. t };

    ghost idle = { λ s. S.Semiring.idle s.semiring };

    ghost added = { λ s t x y. (S.Semiring.ops s.semiring).sum t ((S.Semiring.ops s.semiring).product x y) };

    // above every total, and above zero
    ghost growth = { λ s. (S.Semiring.ops s.semiring).zero + 18446744073709551616 };

    ghost plain = { λ _ _. true };

    ghost lawful = { λ s. S.Semiring.lawful s.semiring };

    ghost starts = { Prim.search rules };

    fn is_member(&self, x: u64) -> bool {
        self.semiring.is_member(x)
    }

    fn zero(&self) -> u64 {
        self.semiring.zero()
    }

    fn one(&self) -> u64 {
        self.semiring.one()
    }

    fn sum(&self, x: u64, y: u64) -> u64 {
        self.semiring.sum(x, y)
    }

    fn product(&self, x: u64, y: u64) -> u64 {
        self.semiring.product(x, y)
    }

    fn adds_nothing(&self, x: u64) -> bool {
        self.semiring.adds_nothing(x)
    }

    fn is_plain(&self, _x: u64) -> bool {
        true
    }

    fn plus_product(&self, total: u64, x: u64, y: u64) -> u64 {
        self.semiring.sum(total, self.semiring.product(x, y))
    }

    fn settle(&self, total: u64) -> u64 {
        total
    }
}
