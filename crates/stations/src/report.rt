// What is printed of a list: the refusals in order, and then the list as the writer gives it.
ghost use Rattle.std.specs.Prelude.{◌≡◌, IfOk};
ghost use Rattle.stations.specs.Lists.{report_text};
ghost use Rattle.text.specs.AnswerText.{answers_text};
ghost use Rattle.text.specs.StationText.{stations_text};

use crate::list::List;
use station::record::Station;
use std::alloc::{AllocError, Global};
use text::answer::Answer;
use text::station_text::write_stations;
use text::written::write;

// The answers, one after another, in as much memory as they need.
#[tactic(auto, using(text::proofs::Counting::filled_exactly))]
fn answers_text(alloc: Global, answers: &[Answer]) -> Result<Vec<u8>, AllocError>
    ensures { IfOk result (λ text. text.items ≡ answers_text answers.now) }
{
    let needed = write(&answers, &mut []);
    let mut room = vec![in alloc; 0; needed]?;
    write(&answers, &mut room);
    Ok(room)
}

// The list, in as much memory as it needs.
#[tactic(auto, using(text::proofs::Counting::filled_exactly))]
fn list_text(alloc: Global, stations: &[Station]) -> Result<Vec<u8>, AllocError>
    ensures { IfOk result (λ text. text.items ≡ stations_text stations.now) }
{
    let needed = write_stations(stations, &mut []);
    let mut room = vec![in alloc; 0; needed]?;
    write_stations(stations, &mut room);
    Ok(room)
}

pub(crate) fn report(alloc: Global, list: &List) -> Result<Vec<u8>, AllocError>
    ensures { IfOk result (λ text. text.items ≡ report_text list.now.stations.items list.now.answers.items) }
{
    let mut text = answers_text(alloc, &list.answers)?;
    text.extend_from_slice(&list_text(alloc, &list.stations)?)?;
    Ok(text)
}
