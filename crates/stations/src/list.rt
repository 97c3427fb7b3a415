// A station list as it is read: the stations of the good records, and the answers that refuse the others.
ghost use Rattle.std.specs.Prelude.{◌≡◌, ◌++◌, IfOk, OnOk, Some};
ghost use Rattle.stations.specs.Lists.{Gives, Lists, stations_of, answers_of};
ghost use Rattle.text.specs.Reading.{Outcome};

use station::record::Station;
use std::alloc::{AllocError, Global};
use text::answer::Answer;
use text::fault::TextFault;
use text::record::{Damage, Record, next_place, read_record};

#[derive(Drop)]
pub(crate) struct List {
    pub(crate) stations: Vec<Station>,
    pub(crate) answers: Vec<Answer>,
}

// The station at a place where something was found, or what is wrong there.
#[tactic(auto, using(text::proofs::Finding::place_of_damage))]
fn station_at(text: &[u8], at: usize, found: Result<Record, Damage>) -> Result<Station, TextFault>
    requires { Outcome text.now at (Some found) }
    ensures { Gives text.now at found result }
{
    match found {
        Ok(record) => Ok(record.station(text)?),
        Err(damage) => Err(damage.fault_at(at)),
    }
}

impl List {
    // One station more, or one refusal more: of the record with this number, which begins at the place.
    fn take(
        &mut self,
        outcome: Result<Station, TextFault>,
        number: usize,
        at: usize,
    ) -> Result<(), AllocError>
        ensures stations { OnOk result (self.new.stations.items ≡ self.old.stations.items ++ stations_of outcome) }
        ensures answers { OnOk result (self.new.answers.items ≡ self.old.answers.items ++ answers_of number at outcome) }
    {
        match outcome {
            Ok(station) => self.stations.push(station)?,
            Err(fault) => self.answers.push(Answer::No(fault.in_record(number, at)))?,
        }
        Ok(())
    }
}

// The list that the text has, to its end.
#[tactic(auto, using(crate::proofs::Listing::goes_from, crate::proofs::Listing::goes_more, crate::proofs::Listing::goes_ended))]
pub(crate) fn read(alloc: Global, text: &[u8]) -> Result<List, AllocError>
    ensures { IfOk result (λ list. Lists text.now 0 1 list.stations.items list.answers.items) }
{
    let mut list = List {
        stations: Vec::new(alloc),
        answers: Vec::new(alloc),
    };
    let mut at = 0;
    let mut number = 1;
    while let Some(found) = read_record(text, at) {
        list.take(station_at(text, at, found), number, at)?;
        at = next_place(found);
        number += 1;
    }
    Ok(list)
}
