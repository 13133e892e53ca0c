//! How a command ended, and the number that tells it.
ghost use Rattle.std.specs.Prelude.{◌≡◌};
ghost use Rattle.dkg_outside.specs.Statuses.{exit_status_of};

use dkg_infos::Fault;

/// How a command ended. The program's exit status is its number.
#[derive(Debug, Drop)]
pub enum Status {
    /// The script was read to its end, and every life was run.
    Done,
    /// The words name no command.
    Usage,
    /// The bytes are no script. The place is the offset of the first line that no script has after the lines before it; the length,
    /// where only the last line is missing.
    BadScript { place: u64 },
    /// The bytes are a script of a form that isn't run yet.
    Unsupported,
    /// The node ended with a fault that is neither want of memory nor a device's.
    Fault(Fault),
    /// The disk or the secret store failed.
    Device,
    /// Memory ran out.
    NoMemory,
    /// The source failed.
    ReadFault,
    /// The sink failed.
    WriteFault,
    /// The source has more bytes than a script may have.
    TooLong,
}

impl Status {
    /// The number of the status.
    pub fn number(&self) -> u8
        ensures { result ≡ exit_status_of self.now }
    {
        match self {
            Status::Done => 0,
            Status::Usage => 2,
            Status::BadScript { .. } => 3,
            Status::Fault(_) => 4,
            Status::Device => 5,
            Status::NoMemory => 6,
            Status::ReadFault => 7,
            Status::WriteFault => 8,
            Status::TooLong => 9,
            Status::Unsupported => 10,
        }
    }
}
