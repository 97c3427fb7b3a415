// When two records are the same: by label, status and codes, whatever stands behind the labels.
ghost use Rattle.std.specs.Prelude.{◌≡◌};
ghost use Rattle.std.specs.Bool.{Decides};
ghost use Rattle.station.specs.Same.{Same, is_same};
ghost use Rattle.station.specs.SameLaws.{is_same_laws};

use crate::record::Station;

// By hand, since what stands behind the label is no part of a record.
impl PartialEq for Station {
    ghost eq = { is_same };

    ghost laws = { is_same_laws };

    fn eq(&self, other: &Station) -> bool
        ensures value { result ≡ is_same self.now other.now }
        ensures same { Decides result (Same self.now other.now) }
    {
        self.label() == other.label()
            && (self.status, self.up, self.down) == (other.status, other.up, other.down)
    }
}
