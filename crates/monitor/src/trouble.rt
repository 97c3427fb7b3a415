// What can end the program early. A refused record ends nothing.
ghost use Rattle.std.specs.Prelude.{◌≡◌};
ghost use Rattle.monitor.specs.declared.trouble.Trouble.TheVariants as of_trouble;

use std::alloc::AllocError;
use std::io;

#[derive(Debug, Drop)]
pub enum Trouble {
    Memory(AllocError),
    InputOutput(io::Error),
}

impl From<AllocError> for Trouble {
    ghost from_gives = { λ value told. told ≡ of_trouble.Memory value };

    fn from(value: AllocError) -> Trouble {
        Trouble::Memory(value)
    }
}

impl From<io::Error> for Trouble {
    ghost from_gives = { λ value told. told ≡ of_trouble.InputOutput value };

    fn from(value: io::Error) -> Trouble {
        Trouble::InputOutput(value)
    }
}
