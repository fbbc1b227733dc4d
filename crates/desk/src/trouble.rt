// What is wrong with a line of a script, and what ends a command.
ghost use Rattle.std.specs.Prelude.{◌≡◌};
ghost use Rattle.std.specs.IoError.{error_kind};
ghost use Rattle.std.specs.declared.io.ErrorKind.TheVariants.{OutOfMemory};
ghost use Rattle.desk.specs.Troubles.{hex_trouble};
ghost use Rattle.desk.specs.declared.trouble.Stop.TheVariants.{Output};
ghost use Rattle.desk.specs.declared.trouble.Trouble.TheVariants.{NoMemory, NoNumber, NoRoom, NoText, OutOfRange};

use hex::FromHexError;
use modes::UnknownNumber;
use std::alloc::AllocError;
use std::io;
use std::num::ParseIntError;
use std::str::Utf8Error;
use thiserror::Error;

// Why a line is no command.
#[derive(Clone, Copy, Debug, PartialEq, Eq, Error)]
pub enum Trouble {
    #[error("the line is not text")]
    NoText,
    #[error("there is no such command")]
    NoCommand,
    #[error("a word is not a number of the kind asked for")]
    NoNumber,
    #[error("a number is out of range")]
    OutOfRange,
    #[error("there are too few words")]
    TooFew,
    #[error("there are too many words")]
    TooMany,
    #[error("there is no number of that place")]
    NotThere,
    #[error("there is no frame of that number")]
    NoFrame,
    #[error("the packet does not fit its block")]
    NoRoom,
    #[error("there is no memory")]
    NoMemory,
}

impl From<Utf8Error> for Trouble {
    ghost from_gives = { λ _ why. why ≡ NoText };

    fn from(_: Utf8Error) -> Trouble {
        Trouble::NoText
    }
}

impl From<ParseIntError> for Trouble {
    ghost from_gives = { λ _ why. why ≡ NoNumber };

    fn from(_: ParseIntError) -> Trouble {
        Trouble::NoNumber
    }
}

impl From<UnknownNumber> for Trouble {
    ghost from_gives = { λ _ why. why ≡ OutOfRange };

    fn from(_: UnknownNumber) -> Trouble {
        Trouble::OutOfRange
    }
}

impl From<FromHexError> for Trouble {
    ghost from_gives = { λ error why. why ≡ hex_trouble error };

    fn from(error: FromHexError) -> Trouble {
        match error {
            FromHexError::OutOfMemory => Trouble::NoMemory,
            _ => Trouble::NoNumber,
        }
    }
}

impl From<AllocError> for Trouble {
    ghost from_gives = { λ _ why. why ≡ NoMemory };

    fn from(_: AllocError) -> Trouble {
        Trouble::NoMemory
    }
}

impl From<packets::NoRoom> for Trouble {
    ghost from_gives = { λ _ why. why ≡ NoRoom };

    fn from(_: packets::NoRoom) -> Trouble {
        Trouble::NoRoom
    }
}

// What ends a command before it is done: its line is wrong, or the program cannot print.
#[derive(Debug, Drop, Error)]
pub enum Stop {
    #[error(transparent)]
    Line(#[from] Trouble),
    #[error(transparent)]
    Output(#[from] io::Error),
}

// The memory that printing takes.
impl From<AllocError> for Stop {
    ghost from_gives = { λ _ stop. (error : _) × (stop ≡ Output error) × (error_kind error ≡ OutOfMemory) };

    fn from(error: AllocError) -> Stop {
        Stop::Output(error.into())
    }
}
