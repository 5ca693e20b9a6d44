// How a program ends.
ghost use Rattle.std.specs.Prelude.{◌≡◌};
ghost use Rattle.fs_report.specs.ExitCode.{exit_code};

/// How a program ends.
#[derive(Clone, Copy, Debug, PartialEq, Eq)]
pub enum Status {
    /// All that was asked is done.
    Ok,
    /// What was asked can't be done.
    Refused,
    /// The words are no command.
    Words,
    /// A device, host or stream failed.
    Fault,
    /// Memory was wanting.
    Memory,
    /// The image is damaged.
    Damaged,
}

impl Status {
    /// The exit code of the program: 0 for `Ok`, and 1 to 5 for the others in their order.
    pub fn code(&self) -> u8
        ensures { result ≡ exit_code self.now }
    {
        match self {
            Status::Ok => 0,
            Status::Refused => 1,
            Status::Words => 2,
            Status::Fault => 3,
            Status::Memory => 4,
            Status::Damaged => 5,
        }
    }
}
