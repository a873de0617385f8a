//! How the program ends.
ghost use Rattle.std.specs.Prelude.{◌≡◌};
ghost use Rattle.command_answers.specs.Status.{status_number};

/// How a call of the program ended; the number is the exit status of its process.
#[derive(Clone, Copy, Debug, PartialEq, Eq)]
pub enum Status {
    /// The answer is written.
    Done = 0,

    /// The text breaks a rule, which is written with its line.
    Refused = 1,

    /// The arguments are no command.
    Usage = 2,

    /// The memory image breaks a rule.
    BadImage = 3,

    /// The call names no block that can be run.
    BadCall = 4,

    /// The run ended with a fault.
    Faulted = 5,

    /// The run has not ended within its bound.
    Going = 6,

    /// An input could not be read.
    ReadFault = 7,

    /// The output could not be written whole.
    WriteFault = 8,

    /// An input is longer than its limit.
    TooLong = 9,

    /// Memory ran out before anything was written.
    NoMemory = 10,
}

impl Status {
    /// The exit status of the process, 0 to 10.
    pub fn number(self) -> u8
        ensures { result ≡ status_number self }
    {
        self as u8
    }
}
