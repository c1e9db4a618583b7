//! The endings of the program.

ghost use Rattle.program.specs.Endings.{HasStatus};

use play::Fail;

/// How the program ended.
#[derive(Clone, Copy, PartialEq, Eq, Debug)]
pub enum Ending {
    /// The script ran, and its output is written.
    Success,
    /// The words asked for the help or the version, and its text is written.
    HelpText,
    /// The parser refuses the words.
    UsageError,
    /// The run of the script has no output, or a text can't be written.
    Failure(Fail),
}

impl Ending {
    /// The exit status: 0 for `Success` and `HelpText`, 2 for `UsageError`, 3 if memory ran out or
    /// a thread can't be started, and 1 for any other failure.
    pub fn status(&self) -> u8
        ensures { HasStatus self.now result }
    {
        match self {
            Ending::Success | Ending::HelpText => 0,
            Ending::UsageError => 2,
            Ending::Failure(fail) => fail.status(),
        }
    }
}

/// The ending of the program, and whether its message was written.
#[derive(Clone, Copy, PartialEq, Eq, Debug)]
pub struct Exit {
    /// How the program ended.
    pub ending: Ending,
    /// False if the message of the ending could not be written to standard error.
    pub is_reported: bool,
}
