// What the fields of a record say: numbers, words, labels and verbs. Quotes are no part of what a field means.
ghost use Rattle.std.specs.Prelude.{◌≡◌};
ghost use Rattle.text.specs.Columns.{IsNumber, IsStatus, IsKind, IsVerb, OrFault};
ghost use Rattle.text.specs.declared.fault.RecordFault.TheVariants.{Unknown, NotANumber, NotAWord};
ghost use Rattle.text.specs.Contents.{inner, content, is_quoted};
ghost use Rattle.text.specs.LabelColumns.{held};
ghost use Rattle.text.specs.Places.{raw_at};

use crate::fault::RecordFault;
use crate::label::LabelColumn;
use crate::number::decimal_number;
use crate::record::Field;
use crate::words::{KindName, Verb, kind_named, status_named, verb_named};
use station::record::Status;

// Whether it begins with a quote and has a byte behind that: of the grammar's fields, the quoted ones.
fn has_quotes(raw: &[u8]) -> bool
    ensures { result ≡ is_quoted raw.now }
{
    raw.len() >= 2 && raw[0] == b'"'
}

// Without the quotes around it.
pub(crate) fn unquoted(raw: &[u8]) -> &[u8]
    ensures { result.now ≡ inner raw.now }
{
    if has_quotes(raw) {
        &raw[1..raw.len() - 1]
    } else {
        raw
    }
}

// The verb that the field means, with or without quotes.
#[tactic(auto, using(crate::proofs::Quoting::verb_meant))]
fn verb_meant(raw: &[u8]) -> Option<Verb>
    ensures { IsVerb (content raw.now) result }
{
    verb_named(unquoted(raw))
}

impl Field {
    // The field as it is written; nothing where the place is none of the text's.
    #[tactic(auto, unfolding(crate::specs::Places::raw_at))]
    pub fn raw<'a>(&self, text: &'a [u8]) -> &'a [u8]
        ensures { result.now ≡ raw_at text.now self.now }
    {
        if self.from <= self.to && self.to <= text.len() {
            &text[self.from..self.to]
        } else {
            &[]
        }
    }

    #[tactic(auto, using(crate::proofs::Quoting::number_meant))]
    pub fn number(&self, text: &[u8]) -> Result<u64, RecordFault>
        ensures { OrFault (IsNumber (content (raw_at text.now self.now))) (NotANumber self.now.from) result }
    {
        decimal_number(unquoted(self.raw(text))).ok_or(RecordFault::NotANumber(self.from))
    }

    #[tactic(auto, using(crate::proofs::Quoting::status_meant))]
    pub fn status(&self, text: &[u8]) -> Result<Status, RecordFault>
        ensures { OrFault (IsStatus (content (raw_at text.now self.now))) (NotAWord self.now.from) result }
    {
        status_named(unquoted(self.raw(text))).ok_or(RecordFault::NotAWord(self.from))
    }

    #[tactic(auto, using(crate::proofs::Quoting::kind_meant))]
    pub fn kind(&self, text: &[u8]) -> Result<KindName, RecordFault>
        ensures { OrFault (IsKind (content (raw_at text.now self.now))) (NotAWord self.now.from) result }
    {
        kind_named(unquoted(self.raw(text))).ok_or(RecordFault::NotAWord(self.from))
    }

    // The verb that the record's first field is.
    pub fn verb(&self, text: &[u8]) -> Result<Verb, RecordFault>
        ensures { OrFault (IsVerb (content (raw_at text.now self.now))) Unknown result }
    {
        verb_meant(self.raw(text)).ok_or(RecordFault::Unknown)
    }

    // What the field means, as bytes for a label, whether they are one or not.
    #[tactic(auto, unfolding(crate::specs::Contents::content))]
    pub fn label(&self, text: &[u8]) -> LabelColumn
        ensures { result ≡ held (content (raw_at text.now self.now)) }
    {
        let raw = self.raw(text);
        if has_quotes(raw) {
            LabelColumn::of_halved(unquoted(raw))
        } else {
            LabelColumn::of(raw)
        }
    }
}
