// What the program ends with (SPEC 5.8).
ghost use Rattle.std.specs.Prelude.{◌≡◌};
ghost use Rattle.std.specs.Process.{exit_status};
ghost use Rattle.program.specs.Ends.{number_of};

use std::process::ExitCode;

// How a run ended. The system gets its number.
#[derive(Clone, Copy, Debug, PartialEq, Eq)]
pub enum Status {
    // All that was to be printed is out, and no file or puzzle was refused.
    Done = 0,
    // The file or its puzzle was refused.
    Refused = 1,
    // The program was started in a way that it does not know.
    WrongUse = 2,
    // Something can't be written to standard output.
    NotWritten = 3,
}

impl From<Status> for u8 {
    ghost from_gives = { λ status number. number ≡ number_of status };

    fn from(status: Status) -> u8 {
        status as u8
    }
}

impl From<Status> for ExitCode {
    ghost from_gives = { λ status code. exit_status code ≡ number_of status };

    fn from(status: Status) -> ExitCode {
        ExitCode::from(u8::from(status))
    }
}
