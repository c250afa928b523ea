//! The exit status of each way that a call ends.
ghost use Rattle.std.specs.Prelude.{◌≡◌};
ghost use Rattle.unum_cli.specs.Codes.{code};

use crate::answer::Status;

impl Status {
    /// The status with which the program exits.
    pub fn code(&self) -> u8
        ensures { result ≡ code self.now }
    {
        match self {
            Status::Written => 0,
            Status::Refused(_) => 1,
            Status::Usage => 2,
            Status::ReadFault => 3,
            Status::WriteFault => 4,
            Status::Spent => 5,
            Status::NoMemory => 6,
        }
    }
}
