// Counts: 0 to 1,000,000,000; sum and product stop there.
ghost use Rattle.std.specs.Prelude.{◌+◌, ◌*◌, ◌%◌, bit_and, min, nat_le};
ghost use Rattle.semiring.specs.CountsLaws.{counts_small, counts_reduction};

use crate::reduced::Reduce;

#[derive(Clone, Copy, PartialEq, Eq, Debug)]
pub struct Counts;

const MOST: u64 = 1_000_000_000;

// Members have no bits beyond it.
const LOW_HALF: u64 = 0xFFFF_FFFF;

impl Reduce for Counts {
    ghost member = { λ _ n. nat_le n 1000000000 };

    ghost reduction = { λ _ n. min n 1000000000 };

    // the sum of the total and the product of the lower halves, to 64 bits
    ghost added = { λ _ t x y. (t + bit_and x 4294967295 * bit_and y 4294967295 % 18446744073709551616) % 18446744073709551616 };

    // the greatest product
    ghost growth = { λ _. 1000000000000000000 };

    ghost small = { λ _. counts_small };

    ghost lawful = { λ _. counts_reduction };

    fn is_reduced(&self, n: u64) -> bool {
        n <= MOST
    }

    fn reduce(&self, n: u64) -> u64 {
        n.min(MOST)
    }

    // Ten products of members fit 64 bits, and nothing is said of more: a test for each product takes longer than the product. The
    // masks change no member: they tell the compiler that 32 bits are to be multiplied, which it does for two products at once.
    #[tactic(auto, using(crate::proofs::Totals::masked_product))]
    fn add_product(&self, total: u64, x: u64, y: u64) -> u64 {
        total.wrapping_add((x & LOW_HALF).wrapping_mul(y & LOW_HALF))
    }
}
