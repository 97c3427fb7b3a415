// What can end the program early.
use refusal::Refusal;
use std::alloc::AllocError;
use std::io;

#[derive(Debug, Drop)]
pub enum Trouble {
    // a line is not made, or no request of the plan is played; a refused request ends nothing
    Refused(Refusal),
    Memory(AllocError),
    Output(io::Error),
}

impl From<Refusal> for Trouble {
    fn from(value: Refusal) -> Trouble {
        Trouble::Refused(value)
    }
}

impl From<AllocError> for Trouble {
    fn from(value: AllocError) -> Trouble {
        Trouble::Memory(value)
    }
}

impl From<io::Error> for Trouble {
    fn from(value: io::Error) -> Trouble {
        Trouble::Output(value)
    }
}
