// What is wrong with a text: bytes that no record can have, or a well-formed record that is refused.
ghost use Rattle.std.specs.Prelude.{◌≡◌, ◌+◌, min};
ghost use Rattle.text.specs.Faults.{record_fault_number, number_of, refusal_layer, record_layer, layer_of, layer_number, record_place, place_of, refused_at};
ghost use Rattle.text.specs.Writing.{greatest_length};
ghost use Rattle.text.specs.declared.fault.RecordFault.TheVariants as of_record;
ghost use Rattle.text.specs.declared.fault.TextFault.TheVariants as of_text;

use crate::record::Damage;
use refusal::Refusal;

// Why a well-formed record is refused.
#[derive(Clone, Copy)]
pub enum RecordFault {
    // no such verb, or another number of columns than the verb has
    Unknown,
    // a number column is no number; its first byte is at this place of the text
    NotANumber(usize),
    // a column is none of the words that it could be; its first byte is at this place of the text
    NotAWord(usize),
    // no record that the session takes where it is
    OutOfTurn,
    // the call that the record stands for is refused
    Line(Refusal),
}

// Why a text is refused at one of its records.
#[derive(Clone, Copy)]
pub enum TextFault {
    // no record begins there, and the first impossible byte is at this place of the text
    NotWellFormed(usize),
    Record(RecordFault),
    // it is longer than it may be
    TooLong,
}

// Where a refusal comes from.
#[derive(Clone, Copy)]
pub enum Layer {
    Text,
    Record,
    Line,
}

// A refusal as an answer tells it: the record and the byte are counted from 1, the byte over the whole text.
#[derive(Clone, Copy)]
pub struct Refused {
    pub fault: TextFault,
    pub record_number: usize,
    pub byte_number: usize,
}

// A refused call, as the fault of the record that stands for it.
impl From<Refusal> for RecordFault {
    ghost from_gives = { λ refusal fault. fault ≡ of_record.Line refusal };

    fn from(refusal: Refusal) -> RecordFault {
        RecordFault::Line(refusal)
    }
}

impl From<RecordFault> for TextFault {
    ghost from_gives = { λ fault told. told ≡ of_text.Record fault };

    fn from(fault: RecordFault) -> TextFault {
        TextFault::Record(fault)
    }
}

impl Damage {
    // The fault at the place where a record should have begun. The count stops at the greatest number, which no text is long enough for.
    pub fn fault_at(self, start: usize) -> TextFault
        ensures { result ≡ of_text.NotWellFormed (min greatest_length (start + self.offset)) }
    {
        TextFault::NotWellFormed(start.saturating_add(self.offset))
    }
}

// A kind that cannot be, by k or m, is the record's fault; all other refusals are the line's own.
fn refusal_layer(refusal: Refusal) -> Layer
    ensures { result ≡ refusal_layer refusal }
{
    match refusal {
        Refusal::OutOfRange => Layer::Record,
        _ => Layer::Line,
    }
}

impl RecordFault {
    // The number that the panel shows.
    fn number(self) -> u8
        ensures { result ≡ record_fault_number self }
    {
        match self {
            RecordFault::Unknown => 21,
            RecordFault::NotANumber(_) => 22,
            RecordFault::NotAWord(_) => 23,
            RecordFault::OutOfTurn => 24,
            RecordFault::Line(refusal) => u8::from(refusal),
        }
    }

    fn layer(self) -> Layer
        ensures { result ≡ record_layer self }
    {
        match self {
            RecordFault::Line(refusal) => refusal_layer(refusal),
            _ => Layer::Record,
        }
    }

    // Where the fault is in the text: a bad column's first byte, and else the record's.
    fn place(self, start: usize) -> usize
        ensures { result ≡ record_place start self }
    {
        match self {
            RecordFault::NotANumber(place) | RecordFault::NotAWord(place) => place,
            RecordFault::Unknown | RecordFault::OutOfTurn | RecordFault::Line(_) => start,
        }
    }
}

impl TextFault {
    // The number that the panel shows.
    pub fn number(self) -> u8
        ensures { result ≡ number_of self }
    {
        match self {
            TextFault::NotWellFormed(_) => 20,
            TextFault::Record(fault) => fault.number(),
            TextFault::TooLong => 25,
        }
    }

    pub fn layer(self) -> Layer
        ensures { result ≡ layer_of self }
    {
        match self {
            TextFault::NotWellFormed(_) | TextFault::TooLong => Layer::Text,
            TextFault::Record(fault) => fault.layer(),
        }
    }

    // Where the fault is in the text, at a record that begins at start.
    fn place(self, start: usize) -> usize
        ensures { result ≡ place_of start self }
    {
        match self {
            TextFault::NotWellFormed(place) => place,
            TextFault::Record(fault) => fault.place(start),
            TextFault::TooLong => start,
        }
    }

    // The refusal at a record that begins at start.
    pub fn in_record(self, record_number: usize, start: usize) -> Refused
        ensures { result ≡ refused_at self record_number start }
    {
        Refused {
            fault: self,
            record_number,
            byte_number: self.place(start).saturating_add(1),
        }
    }
}

impl Layer {
    pub fn number(self) -> u8
        ensures { result ≡ layer_number self }
    {
        match self {
            Layer::Text => 1,
            Layer::Record => 2,
            Layer::Line => 3,
        }
    }
}
