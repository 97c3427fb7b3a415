// One line of output for each thing shown.
use examples::row::Answer;
use kind::figures::Figures;
use refusal::Refusal;
use station::record::Station;
use std::io;

// Place, label, status and codes of each station.
pub(crate) fn stations(rt: &HostRuntime, list: &[Station]) -> io::Result<()> {
    for (place, station) in (1usize..).zip(list) {
        rt.print(format_args!("{place:>2} "))?;
        rt.write_all(station.label())?;
        println!(rt;
            ": {}, up {}, down {}",
            station.status, station.up, station.down
        )?;
    }
    Ok(())
}

// Two figures and their joins, or the number of the refusal.
pub(crate) fn answer(
    rt: &HostRuntime,
    what: &str,
    answer: Result<Answer, Refusal>,
) -> io::Result<()> {
    match answer {
        Ok(Answer { figures, joins }) => {
            let Figures { first, second } = figures;
            println!(rt; "  {what}: {first}, {second}, {joins}")
        }
        Err(refusal) => println!(rt; "  {what}: refused, {}", u8::from(refusal)),
    }
}
