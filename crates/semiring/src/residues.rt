// Residues by a modulus m from 2 to 2,147,483,647: 0 to m - 1.
ghost use Rattle.std.specs.Prelude.{◌≡◌, ◌≤◌, ◌+◌, ◌*◌, ◌%◌, nat_lt, if◌then◌else◌};
ghost use Rattle.refusal.specs.Refusals.{by_number_as, answered};
ghost use Rattle.semiring.specs.Models.{modulus_refusal};
ghost use Rattle.semiring.specs.ResiduesLaws.{residues_small, residues_reduction};

use crate::reduced::Reduce;
use refusal::Refusal;

#[derive(Clone, Copy, PartialEq, Eq, Debug)]
pub struct Residues {
    pub(crate) modulus: u64,
    ghost low: { 2 ≤ modulus },
    ghost high: { modulus ≤ 2147483647 },
}

// The residues by a modulus from 2 to 2,147,483,647. The range is a pattern, as that of k: a function for both is no shorter.
impl TryFrom<u64> for Residues {
    type Error = Refusal;

    ghost try_from_gives = { λ m r. by_number_as (λ s. s.modulus) r ≡ answered (modulus_refusal m) m };

    fn try_from(modulus: u64) -> Result<Residues, Refusal> {
        match modulus {
            2..=2_147_483_647 => Ok(Residues { modulus }),
            _ => Err(Refusal::OutOfRange),
        }
    }
}

impl Reduce for Residues {
    ghost member = { λ s n. nat_lt n s.modulus };

    ghost reduction = { λ s n. n % s.modulus };

    // the product to 64 bits, and the total with it, or what is left of the total where that is too much
    ghost added = { λ s t x y. let p = x * y % 18446744073709551616 in
        if nat_lt (t + p) 18446744073709551616 then t + p else (t % s.modulus + p) % 18446744073709551616 };

    // above every total: a total is reduced before it would be too great
    ghost growth = { λ _. 18446744073709551616 };

    ghost small = { λ s. residues_small s.modulus s.high };

    ghost lawful = { λ s. residues_reduction s.modulus s.low };

    fn is_reduced(&self, n: u64) -> bool {
        n < self.modulus
    }

    fn reduce(&self, n: u64) -> u64 {
        n % self.modulus
    }

    // A division takes as long as many products, so the total is reduced only where the product does not fit with it.
    #[tactic(auto, using(crate::proofs::Totals::same_remainder))]
    fn add_product(&self, total: u64, x: u64, y: u64) -> u64 {
        let product = x.wrapping_mul(y);
        match total.checked_add(product) {
            Some(more) => more,
            None => self.reduce(total).wrapping_add(product),
        }
    }
}
