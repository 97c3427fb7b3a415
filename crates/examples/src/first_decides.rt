// A semiring whose product does not commute, to hold against what is promised of every semiring.
ghost use Rattle.std.specs.Prelude.{◌==◌, true};
ghost use Rattle.examples.specs.FirstDecides.{first_decides};
ghost use Rattle.std.proofs.Common.{rules};

use semiring::Semiring;

// Codes 0 to 3. Sum is the greater; product is the first factor that is not 2, and 0 where one is 0.
#[derive(Clone, Copy)]
pub struct FirstDecides;

const MOST: u64 = 3;

impl Semiring for FirstDecides {
    ghost ops = { λ _. first_decides };

    // A total is the code itself, and needs no bound.
    ghost code = { λ _ t. t };

    ghost idle = { λ _ x. x == 0 };

    ghost added = { λ _ t x y. first_decides.sum t (first_decides.product x y) };

    ghost growth = { λ _. 18446744073709551616 };

    ghost plain = { λ _ _. true };

    ghost lawful = { Prim.search rules };

    ghost starts = { Prim.search rules };

    fn is_member(&self, x: u64) -> bool {
        x <= MOST
    }

    fn zero(&self) -> u64 {
        0
    }

    fn one(&self) -> u64 {
        2
    }

    // The test of members is written out, for the reason that costs have.
    fn sum(&self, x: u64, y: u64) -> u64 {
        if x > MOST || y > MOST {
            return 0;
        }
        x.max(y)
    }

    fn product(&self, x: u64, y: u64) -> u64 {
        if x > MOST || y > MOST || y == 0 {
            return 0;
        }
        if x == 2 { y } else { x }
    }

    fn adds_nothing(&self, x: u64) -> bool {
        x == 0
    }

    fn is_plain(&self, _x: u64) -> bool {
        true
    }

    fn plus_product(&self, total: u64, x: u64, y: u64) -> u64 {
        self.sum(total, self.product(x, y))
    }

    fn settle(&self, total: u64) -> u64 {
        total
    }
}
