//! The options of the program.
ghost use Rattle.std.specs.Prelude.{◌≡◌};
ghost use Rattle.command_line.specs.declared.line.BadLine.TheVariants.{NoMemory};

use clap::Error;
use script::Options;
use std::alloc::AllocError;

/// What the words of a command line ask for.
#[derive(Drop)]
pub struct CommandLine {
    /// The path of the script.
    pub script: String,
    pub options: Options,
}

/// Why a command line is refused.
#[derive(Drop)]
pub enum BadLine {
    /// `clap` has a text to print: a refusal, or the help or version.
    Clap(Error),
    /// Out of memory.
    NoMemory,
}

impl From<AllocError> for BadLine {
    ghost from_gives = { λ _ refusal. refusal ≡ NoMemory };

    fn from(_error: AllocError) -> BadLine {
        BadLine::NoMemory
    }
}
