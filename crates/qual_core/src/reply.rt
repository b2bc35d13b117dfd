// What is answered.
ghost use Rattle.std.specs.Prelude.{◌≡◌};
ghost use Rattle.qual_core.specs.Top.{number_of};

use text_scan::Text;

/// How a run ended. Its number is the program's exit status.
#[derive(Clone, Copy, Debug, PartialEq, Eq)]
pub enum Status {
    /// Every cell is equal.
    Done,
    /// A cell differs or is refused.
    Faulty,
    /// The words are no command.
    Usage,
    /// A file is refused.
    FileRefused,
    /// The shelf has failed.
    ReadFault,
    /// The sink has failed.
    WriteFault,
    NoMemory,
}

impl Status {
    /// The exit status of the program.
    pub fn number(self) -> u8
        ensures { result ≡ number_of self }
    {
        match self {
            Status::Done => 0,
            Status::Faulty => 1,
            Status::Usage => 2,
            Status::FileRefused => 3,
            Status::ReadFault => 5,
            Status::WriteFault => 6,
            Status::NoMemory => 8,
        }
    }
}

/// A status and the text to be written.
#[derive(Debug, Drop)]
pub(crate) struct Reply {
    pub status: Status,
    pub text: Text,
}
