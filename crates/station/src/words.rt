// The words for statuses.
ghost use Rattle.std.specs.Prelude.{◌≡◌, Some};
ghost use Rattle.station.specs.Words.{status_word};

use crate::record::Status;
use std::fmt;

impl Status {
    pub fn word(self) -> &'static str
        ensures { result.now ≡ status_word self }
    {
        match self {
            Status::Judged => "judged",
            Status::Down => "down",
            Status::Up => "up",
            Status::Bypass => "bypass",
        }
    }
}

// Shows a status as its word.
impl fmt::Display for Status {
    ghost output = { λ status. Some (status_word status) };

    fn fmt<W: fmt::Write>(&self, f: &mut fmt::Formatter<W>) -> fmt::Result {
        f.write_str(self.word())
    }
}
