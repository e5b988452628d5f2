//! The exit status of the program.
ghost use Rattle.std.specs.Prelude.{◌≡◌, ◌≢◌};
ghost use Rattle.std.specs.Process.{exit_status};
ghost use Rattle.ksm_host.specs.Statuses.{code_of, status_after, status_at_options};

use clap::error::ErrorKind;
use ksm_script::{End, RunFault};
use std::io::ErrorKind as Fault;
use std::process::{ExitCode, Termination};

/// How the program ends.
#[derive(Clone, Copy, Debug, PartialEq, Eq)]
pub enum Status {
    /// Every line was read and has its reply.
    Done = 0,
    /// The program's words are no options, or a line is bad.
    NotUnderstood = 2,
    /// A read or a write failed.
    Broken = 3,
    /// Memory was refused before the first line.
    NoMemory = 4,
}

impl Status {
    /// The status where the program's words cannot be read: for want of memory, or as one is not UTF-8.
    pub fn at_words(kind: Fault) -> Status
        ensures memory { kind ≡ Fault.OutOfMemory → result ≡ Status.NoMemory }
        ensures other { kind ≢ Fault.OutOfMemory → result ≡ Status.NotUnderstood }
    {
        match kind {
            Fault::OutOfMemory => Status::NoMemory,
            _ => Status::NotUnderstood,
        }
    }

    /// The status where clap answers something else than a parse. Help is not asked for by a script, and is no success.
    pub fn at_options(kind: ErrorKind) -> Status
        ensures { result ≡ status_at_options kind }
    {
        match kind {
            ErrorKind::OutOfMemory => Status::NoMemory,
            _ => Status::NotUnderstood,
        }
    }

    /// The status after a run of the script, whose last replies `are_sent` or not.
    pub fn after(ended: Result<End, RunFault>, are_sent: bool) -> Status
        ensures { result ≡ status_after ended are_sent }
    {
        match ended {
            Ok(_) if !are_sent => Status::Broken,
            Ok(End::AllRead) => Status::Done,
            Ok(End::BadLine(_)) => Status::NotUnderstood,
            Err(_) => Status::Broken,
        }
    }
}

impl From<Status> for ExitCode {
    ghost use Rattle.std.specs.Prelude.{◌≡◌};
    ghost use Rattle.std.specs.Process.{exit_status};
    ghost use Rattle.ksm_host.specs.Statuses.{code_of};

    ghost from_gives = { λ status code. exit_status code ≡ code_of status };

    fn from(status: Status) -> ExitCode {
        ExitCode::from(status as u8)
    }
}

/// How a run of the program ended, as `main` returns it. A run alone makes one, so no `main` makes its status up.
#[derive(Clone, Copy, Debug, PartialEq, Eq)]
pub struct Outcome {
    status: Status,
}

impl Outcome {
    pub(crate) fn new(status: Status) -> Outcome
        ensures { result.status ≡ status }
    {
        Outcome { status }
    }

    /// The status that the run ended with.
    pub fn status(&self) -> Status
        ensures { result ≡ self.now.status }
    {
        self.status
    }
}

impl Termination for Outcome {
    fn report<R: Eprint>(self, _rt: &R) -> ExitCode
        ensures { exit_status result ≡ code_of self.status }
    {
        ExitCode::from(self.status)
    }
}
