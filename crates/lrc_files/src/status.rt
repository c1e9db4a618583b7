//! Exit statuses.

ghost use Rattle.std.specs.Prelude.{◌≡◌, max};
ghost use Rattle.lrc_files.specs.Exit.{exit_code};

/// How a command ended.
#[derive(Clone, Copy, Debug, PartialEq, Eq, Drop)]
pub enum Status {
    /// All that was looked at is whole, or was made whole.
    Whole,
    /// Something is lost or damaged, and all of it is recoverable.
    Recoverable,
    /// A part of the file is unrecoverable.
    Unrecoverable,
    /// The command line is refused, or a file can't be read or written.
    Failed,
}

impl Status {
    /// The exit status: 0, 1, 2 or 3.
    pub fn code(self) -> u8
        ensures { result ≡ exit_code self }
    {
        match self {
            Status::Whole => 0,
            Status::Recoverable => 1,
            Status::Unrecoverable => 2,
            Status::Failed => 3,
        }
    }

    /// The worse of two.
    pub fn or(self, other: Status) -> Status
        ensures { exit_code result ≡ max (exit_code self) (exit_code other) }
    {
        if self.code() < other.code() {
            other
        } else {
            self
        }
    }
}
