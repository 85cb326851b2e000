//! The errors of arguments that give no job.

ghost use Rattle.std.specs.Prelude.{◌≡◌};
ghost use Rattle.std.specs.IoError.{error_kind};
ghost use Rattle.rv_command_line.specs.Faults.{unreadable, words_fault_number};

use std::io;
use std::io::ErrorKind;

/// Why arguments give no job.
#[derive(Debug, Drop)]
pub enum WordsFault {
    /// Error 1: the command line does not accept the arguments.
    Refused,
    /// Error 2: memory is exhausted.
    NoMemory,
    /// Error 3: the arguments ask for help, and this is its text.
    Help(String),
}

impl WordsFault {
    /// Returns the error of arguments that the system does not give, because memory is exhausted or because they are not UTF-8.
    pub fn of_unreadable(error: &io::Error) -> WordsFault
        ensures { result ≡ unreadable (error_kind error.now) }
    {
        match error.kind() {
            ErrorKind::OutOfMemory => WordsFault::NoMemory,
            _ => WordsFault::Refused,
        }
    }

    /// Returns the number of the error, 1 to 3.
    pub fn number(&self) -> u8
        ensures { result ≡ words_fault_number self.now }
    {
        match self {
            WordsFault::Refused => 1,
            WordsFault::NoMemory => 2,
            WordsFault::Help(_) => 3,
        }
    }
}
