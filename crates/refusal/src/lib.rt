// Why a call is turned down, and the number that the panel shows for it.
#![tactic(auto)]

ghost use Rattle.std.specs.Prelude.{◌≡◌};
ghost use Rattle.refusal.specs.Refusals.{number};

#[derive(Clone, Copy, PartialEq, Eq, Debug)]
pub enum Refusal {
    // k or m is outside its range
    OutOfRange,
    // a space handed in is too short
    SpaceTooShort,
    // more stations than a line has room for
    TooManyStations,
    // a label is too long, or has a byte that no label has
    BadLabel,
    // the kind does not take the record
    NotTaken,
    // a place, or a window, is not one of the line's
    OutsideLine,
    // no station stands
    NoStation,
    // fewer stations than the shortest ring
    RingTooShort,
    // a trial is open
    TrialOpen,
    // no trial is open
    NoTrial,
    // in a trial, no room is left in the journal
    JournalFull,
    // a journal entry cannot be put back: its place, or the record that it gives
    BadEntry,
}

// The panel's number of the refusal.
impl From<Refusal> for u8 {
    ghost from_gives = { λ refusal n. n ≡ number refusal };

    fn from(refusal: Refusal) -> u8 {
        match refusal {
            Refusal::OutOfRange => 1,
            Refusal::SpaceTooShort => 2,
            Refusal::TooManyStations => 3,
            Refusal::BadLabel => 4,
            Refusal::NotTaken => 5,
            Refusal::OutsideLine => 6,
            Refusal::NoStation => 7,
            Refusal::RingTooShort => 8,
            Refusal::TrialOpen => 9,
            Refusal::NoTrial => 10,
            Refusal::JournalFull => 11,
            Refusal::BadEntry => 12,
        }
    }
}
