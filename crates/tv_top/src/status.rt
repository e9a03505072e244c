ghost use Rattle.std.specs.Prelude.{◌≡◌};
ghost use Rattle.std.specs.Process.{exit_status};
ghost use Rattle.tv_top.specs.Answers.{status_number};

use std::process::ExitCode;

/// How a run ended.
#[derive(Clone, Copy, Debug, PartialEq, Eq)]
pub enum Status {
    /// The property holds at every initial state.
    Proved,
    /// The property fails at an initial state, which was written.
    Disproved,
    /// It is not known whether the property holds.
    Unknown,
    /// The words, the program or the property were refused, or the certificate's text.
    Refused,
    /// The source failed, and nothing was written.
    ReadFault,
    /// The sink failed.
    WriteFault,
    /// There was too little memory, and nothing was written.
    Memory,
    /// An obligation of the given certificate is not met.
    CertificateRefused,
}

impl Status {
    fn number(self) -> u8
        ensures { result ≡ status_number self }
    {
        match self {
            Status::Proved => 0,
            Status::Disproved => 1,
            Status::Unknown => 2,
            Status::Refused => 3,
            Status::ReadFault => 4,
            Status::WriteFault => 5,
            Status::Memory => 6,
            Status::CertificateRefused => 7,
        }
    }

    /// What the program ends with.
    pub fn exit_code(self) -> ExitCode
        ensures { exit_status result ≡ status_number self }
    {
        ExitCode::from(self.number())
    }
}
