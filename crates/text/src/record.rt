// Records of a text: where a record's fields stand, or the first byte that no record can have there.
ghost use Rattle.std.specs.Prelude.{◌≡◌, ℕ, ◌+◌, ◌-◌, ◌<◌, ◌≤◌, List, length, drop, slice_set, IfSome, MatchResult, Option, Result, Some, Ok};
ghost use Rattle.text.specs.Grammar.{Piece, raws, Begins};
ghost use Rattle.text.specs.Places.{record_of};
ghost use Rattle.text.specs.Reading.{Reads, Outcome, next_of};
ghost use Rattle.text.specs.Scanning.{StopsAt};

use crate::scan::{Behind, behind_field, field_at, resume};

// A field's place in the text, with its quotes.
#[derive(Clone, Copy)]
pub struct Field {
    pub from: usize,
    pub to: usize,
}

// A record: the places of its first five fields, how many fields it has, and where the text goes on behind it.
#[derive(Clone, Copy)]
pub struct Record {
    pub fields: [Field; 5],
    pub count: usize,
    pub next: usize,
}

// Where no record begins: the first impossible byte, counted from 0 at the byte that should begin one, and the place behind the next
// CRLF from that byte on, where reading goes on.
#[derive(Clone, Copy)]
pub struct Damage {
    pub offset: usize,
    pub next: usize,
}

impl Record {
    // Counts one field more, and keeps its place while there is room.
    fn push(&mut self, field: Field)
        requires { self.old.count < usize.MAX }
        ensures { self.new ≡ record self.old { fields = slice_set self.old.fields self.old.count field; count = self.old.count + 1 } }
    {
        if self.count < self.fields.len() {
            self.fields[self.count] = field;
        }
        self.count += 1;
    }
}

// The record that begins at the place, or the first byte that none can have there.
#[tactic(auto, using(crate::proofs::Recording::so_far_none))]
fn record_at(text: &[u8], at: usize) -> Result<Record, usize>
    requires { at < length text.now }
    ensures { MatchResult result (Reads text.now at) (StopsAt text.now at) }
{
    let mut record = Record {
        fields: [Field { from: 0, to: 0 }; 5],
        count: 0,
        next: at,
    };
    'fields: loop {
        let field = field_at(text, record.next)?;
        record.push(field);
        match behind_field(text, field.to) {
            Behind::Comma => record.next = field.to + 1,
            Behind::End(next) => return Ok(Record { next, ..record }),
            Behind::Impossible(k) => return Err(k),
        }
    }
}

// What the text has at the place: nothing at its end or behind it, else a record, or the first byte that no record can have there.
#[tactic(auto, using(crate::proofs::Recording::breaks_from))]
fn found_at(text: &[u8], at: usize) -> Option<Result<Record, Damage>>
    ensures { Outcome text.now at result }
{
    if at >= text.len() {
        return None;
    }
    match record_at(text, at) {
        Ok(record) => Some(Ok(record)),
        Err(k) => Some(Err(Damage {
            offset: k - at,
            next: resume(text, k),
        })),
    }
}

// The same, with what a caller may rest on besides.
#[tactic(auto, using(crate::proofs::Deciding::outcome_same, crate::proofs::Deciding::outcome_exact, crate::proofs::Going::outcome_onward))]
pub fn read_record(text: &[u8], at: usize) -> Option<Result<Record, Damage>>
    ensures outcome { Outcome text.now at result }
    // nothing else can be found there
    ensures only { (other : Option (Result Record Damage)) → Outcome text.now at other → other ≡ result }
    // what the grammar has there is found
    ensures exact { (pieces : List Piece) (rest : List ℕ) → Begins (drop at text.now) pieces rest
        → result ≡ Some (Ok (record_of at (raws pieces) (length text.now - length rest))) }
    // behind whatever is found, less of the text is left
    ensures onward { IfSome result (λ found. (at < next_of found) × (next_of found ≤ length text.now)) }
{
    found_at(text, at)
}

// Where the text goes on behind what was found.
pub fn next_place(found: Result<Record, Damage>) -> usize
    ensures { result ≡ next_of found }
{
    match found {
        Ok(record) => record.next,
        Err(damage) => damage.next,
    }
}
