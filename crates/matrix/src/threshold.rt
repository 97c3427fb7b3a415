// The number k of neighbours down in a row that makes a failure, and the chain of runs that it fixes.
ghost use Rattle.std.specs.Prelude.{◌≡◌, ◌+◌, ◌*◌, ◌≤◌};
ghost use Rattle.refusal.specs.Refusals.{by_number_as, answered};
ghost use Rattle.matrix.specs.Chain.{after_up, after_down};
ghost use Rattle.matrix.specs.Range.{threshold_refusal};

use refusal::Refusal;

#[derive(Clone, Copy, PartialEq, Eq, Debug)]
pub struct Threshold {
    pub k: usize,
    ghost low: { 1 ≤ k },
    ghost high: { k ≤ 4 },
}

// A threshold from 1 to 4.
impl TryFrom<u64> for Threshold {
    type Error = Refusal;

    ghost try_from_gives = { λ k r. by_number_as (λ t. t.k) r ≡ answered (threshold_refusal k) k };

    fn try_from(k: u64) -> Result<Threshold, Refusal> {
        match k {
            // a cast, since usize has no From<u64>
            1..=4 => Ok(Threshold { k: k as usize }),
            _ => Err(Refusal::OutOfRange),
        }
    }
}

impl Threshold {
    // How many states the chain has: as many rows and columns of a matrix are used.
    pub(crate) fn width(self) -> usize
        ensures { result ≡ 2 * self.k + 1 }
    {
        2 * self.k + 1
    }

    // Where an up station leads to from a state.
    #[tactic(auto, unfolding(crate::specs::Chain::after_up))]
    pub(crate) fn after_up(self, state: usize) -> usize
        ensures { result ≡ after_up self.k state }
    {
        if state < self.k { 0 } else { self.k }
    }

    // Where a down station leads to from a state.
    #[tactic(auto, unfolding(crate::specs::Chain::after_down))]
    pub(crate) fn after_down(self, state: usize) -> usize
        ensures { result ≡ after_down self.k state }
    {
        let k = self.k;
        if state >= k {
            state.min(2 * k - 1) + 1
        } else if state + 1 < k {
            state + 1
        } else {
            2 * k
        }
    }
}
