// What can end the program early.
use examples::row::Row;
use refusal::Refusal;
use std::alloc::AllocError;
use std::io;

#[derive(Debug, Drop)]
pub enum Trouble {
    Refused(Refusal),
    // the monitor's answer to an example row is not the rulebook's
    NotTheRulebook(Row),
    // the tree's figures are not those of the same stations joined left to right
    NotAsJoined,
    Memory(AllocError),
    Output(io::Error),
}

impl From<Refusal> for Trouble {
    fn from(value: Refusal) -> Trouble {
        Trouble::Refused(value)
    }
}

impl From<AllocError> for Trouble {
    fn from(value: AllocError) -> Trouble {
        Trouble::Memory(value)
    }
}

impl From<io::Error> for Trouble {
    fn from(value: io::Error) -> Trouble {
        Trouble::Output(value)
    }
}
