// Costs: 0 to 1,000,000,000,000, and a code for none. Sum is the lesser, product is addition that stops.
ghost use Rattle.std.specs.Prelude.{◌+◌, ◌||◌, min, true, nat_le, if◌then◌else◌};
ghost use Rattle.semiring.specs.Models.{costs, none};
ghost use Rattle.std.proofs.Common.{rules};

use crate::Semiring;

#[derive(Clone, Copy, PartialEq, Eq, Debug)]
pub struct Costs;

const MOST: u64 = 1_000_000_000_000;

// What cannot be had at any cost. A code and no Option, since records, nodes and texts hold plain 64-bit codes.
const NONE: u64 = 1_000_000_000_001;

impl Semiring for Costs {
    ghost ops = { λ _. costs };

    ghost code = { λ _ t. min t none };

    // none, and codes that are no members
    ghost idle = { λ _ x. nat_le none x };

    // a product that is none leaves any total as it is
    ghost added = { λ _ t x y. if nat_le none x || nat_le none y then t else min t (min (x + y) 1000000000000) };

    // above every total: costs need no bound on one
    ghost growth = { λ _. 18446744073709551616 };

    // all codes: each product is tested for none anyway
    ghost plain = { λ _ _. true };

    ghost lawful = { Prim.search rules };

    ghost starts = { Prim.search rules };

    fn is_member(&self, x: u64) -> bool {
        x <= NONE
    }

    fn zero(&self) -> u64 {
        NONE
    }

    fn one(&self) -> u64 {
        0
    }

    // The test of members is written out: the check does not cover a shared function, since from its bound this impl leads back to it.
    fn sum(&self, x: u64, y: u64) -> u64 {
        if x > NONE || y > NONE {
            return NONE;
        }
        x.min(y)
    }

    fn product(&self, x: u64, y: u64) -> u64 {
        if x >= NONE || y >= NONE {
            return NONE;
        }
        (x + y).min(MOST)
    }

    // None, and codes that are no members. A product has the same test, which the compiler then makes once a row.
    fn adds_nothing(&self, x: u64) -> bool {
        x >= NONE
    }

    fn is_plain(&self, _x: u64) -> bool {
        true
    }

    // A product that is none leaves any total as it is.
    fn plus_product(&self, total: u64, x: u64, y: u64) -> u64 {
        if y >= NONE || x >= NONE {
            return total;
        }
        total.min((x + y).min(MOST))
    }

    fn settle(&self, total: u64) -> u64 {
        total.min(NONE)
    }
}
