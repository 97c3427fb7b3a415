// Add records: their columns, and the station that one makes.
ghost use Rattle.std.specs.Prelude.{◌≡◌, MatchResult};
ghost use Rattle.refusal.specs.Refusals.{by_number};
ghost use Rattle.text.specs.declared.fault.RecordFault.TheVariants.{Unknown};
ghost use Rattle.text.specs.declared.words.Verb.TheVariants.{Add};
ghost use Rattle.text.specs.Adding.{AddColumnsAre, StationIs, made_of};
ghost use Rattle.text.specs.Verbs.{IsVerbOf};

use crate::fault::RecordFault;
use crate::label::LabelColumn;
use crate::record::Record;
use crate::words::Verb;
use refusal::Refusal;
use station::record::{Station, Status};

// The columns of an add record.
#[derive(Clone, Copy)]
pub struct AddColumns {
    pub label: LabelColumn,
    pub status: Status,
    pub up: u64,
    pub down: u64,
}

impl AddColumns {
    // The station that they make, or the refusal of their label.
    fn made(&self) -> Result<Station, Refusal>
        ensures { by_number result ≡ made_of self.now }
    {
        Station::new(self.label.bytes(), self.status, self.up, self.down)
    }
}

impl Record {
    // Refuses a record that is no add record.
    #[tactic(auto, using(crate::proofs::Verbs::one_verb))]
    fn expect_add(&self, text: &[u8]) -> Result<(), RecordFault>
        ensures { MatchResult result (λ _. IsVerbOf text.now self.now Add) (λ fault. (IsVerbOf text.now self.now Add → ⊥) × (fault ≡ Unknown)) }
    {
        if !matches!(self.verb(text)?, Verb::Add) {
            return Err(RecordFault::Unknown);
        }
        Ok(())
    }

    // The columns of an add record; or that it is none, or its first bad column.
    pub fn add_columns(&self, text: &[u8]) -> Result<AddColumns, RecordFault>
        ensures { AddColumnsAre text.now self.now result }
    {
        self.expect_add(text)?;
        let [_, label, status, up, down] = self.fields;
        Ok(AddColumns {
            label: label.label(text),
            status: status.status(text)?,
            up: up.number(text)?,
            down: down.number(text)?,
        })
    }

    // The station of an add record, by the call by which an add on a line makes it; no kind is asked.
    pub fn station(&self, text: &[u8]) -> Result<Station, RecordFault>
        ensures { StationIs text.now self.now result }
    {
        let station = self.add_columns(text)?.made()?;
        Ok(station)
    }
}
