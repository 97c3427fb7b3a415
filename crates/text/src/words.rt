// The words for kinds, statuses and verbs.
ghost use Rattle.std.specs.Prelude.{◌≡◌};
ghost use Rattle.text.specs.Columns.{IsStatus, IsKind, IsVerb};

use station::record::Status;

// The kinds that a text can name.
#[derive(Clone, Copy)]
pub enum KindName {
    Runs,
    Counts,
    Residues,
    Costs,
}

// What the records of a session are about.
#[derive(Clone, Copy, PartialEq, Eq)]
pub enum Verb {
    Line,
    Add,
    Close,
    Set,
    Try,
    Keep,
    Back,
    Ask,
    Ring,
}

// The status whose word this is.
pub(crate) fn status_named(word: &[u8]) -> Option<Status>
    ensures { IsStatus word.now result }
{
    match word {
        b"judged" => Some(Status::Judged),
        b"down" => Some(Status::Down),
        b"up" => Some(Status::Up),
        b"bypass" => Some(Status::Bypass),
        _ => None,
    }
}

// The kind whose word this is.
pub(crate) fn kind_named(word: &[u8]) -> Option<KindName>
    ensures { IsKind word.now result }
{
    match word {
        b"runs" => Some(KindName::Runs),
        b"counts" => Some(KindName::Counts),
        b"residues" => Some(KindName::Residues),
        b"costs" => Some(KindName::Costs),
        _ => None,
    }
}

// The verb whose word this is.
pub(crate) fn verb_named(word: &[u8]) -> Option<Verb>
    ensures { IsVerb word.now result }
{
    match word {
        b"line" => Some(Verb::Line),
        b"add" => Some(Verb::Add),
        b"close" => Some(Verb::Close),
        b"set" => Some(Verb::Set),
        b"try" => Some(Verb::Try),
        b"keep" => Some(Verb::Keep),
        b"back" => Some(Verb::Back),
        b"ask" => Some(Verb::Ask),
        b"ring" => Some(Verb::Ring),
        _ => None,
    }
}
