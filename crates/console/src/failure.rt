ghost use Rattle.std.specs.Prelude.{◌≡◌};
ghost use Rattle.console.specs.declared.failure.Failure.TheVariants.{Io, Memory};
ghost use Rattle.console.specs.Reports.{failure_text};

use std::alloc::AllocError;
use std::error::Error;
use std::{fmt, io};

/// Why a dossier was not answered, or its answer not printed.
#[derive(Debug, Drop)]
pub enum Failure {
    // no docket can have room for so many concepts or lines
    Capacities,
    // there are fewer places for replies than records
    Replies,
    // no memory was to be had
    Memory,
    // the input was not read, or the report not written whole
    Io(io::Error),
    // the report is written whole, and the notice is not
    Notices(io::Error),
}

impl fmt::Display for Failure {
    ghost output = { λ f. failure_text f };

    fn fmt<W: fmt::Write>(&self, f: &mut fmt::Formatter<W>) -> fmt::Result {
        match self {
            Failure::Capacities => write!(f, "no docket of these capacities"),
            Failure::Replies => write!(f, "more records than replies"),
            Failure::Memory => write!(f, "out of memory"),
            Failure::Io(error) => write!(f, "{error}"),
            Failure::Notices(error) => write!(f, "{error}"),
        }
    }
}

impl Error for Failure {}

impl From<AllocError> for Failure {
    ghost from_gives = { λ error failure. failure ≡ Memory };

    fn from(_: AllocError) -> Failure {
        Failure::Memory
    }
}

impl From<io::Error> for Failure {
    ghost from_gives = { λ error failure. failure ≡ Io error };

    fn from(error: io::Error) -> Failure {
        Failure::Io(error)
    }
}
