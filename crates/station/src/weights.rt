// What a station weighs up and down, by its status.
ghost use Rattle.std.specs.Prelude.{◌≡◌};
ghost use Rattle.station.specs.Weights.{up_weight, down_weight};

use crate::record::{Station, Status};
use semiring::Semiring;

impl Station {
    pub fn up_weight<S: Semiring>(&self, semiring: &S) -> u64
        ensures { result ≡ up_weight (S.Semiring.ops semiring.now) self.now }
    {
        match self.status {
            Status::Judged => self.up,
            Status::Down => semiring.zero(),
            Status::Up => self.up,
            Status::Bypass => semiring.one(),
        }
    }

    pub fn down_weight<S: Semiring>(&self, semiring: &S) -> u64
        ensures { result ≡ down_weight (S.Semiring.ops semiring.now) self.now }
    {
        match self.status {
            Status::Judged => self.down,
            Status::Down => self.down,
            Status::Up => semiring.zero(),
            Status::Bypass => semiring.zero(),
        }
    }
}
