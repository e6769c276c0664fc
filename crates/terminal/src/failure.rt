// How a run ends, and the status that says so.
ghost use Rattle.std.specs.Prelude.{◌≡◌};
ghost use Rattle.std.specs.Process.{exit_status};
ghost use Rattle.terminal.specs.Status.{status_of, worse_of};

use std::process::ExitCode;

// Why a run did not do all that it was asked. It has been said on standard error.
#[derive(Clone, Copy, Debug, PartialEq, Eq, PartialOrd, Ord)]
pub enum Failure {
    Refused,
    Trouble,
}

// The status to end with: 0 done, 1 refused, 2 trouble.
pub fn exit_code(run: Result<(), Failure>) -> ExitCode
    ensures { exit_status result ≡ status_of run }
{
    ExitCode::from(match run {
        Ok(()) => 0u8,
        Err(Failure::Refused) => 1,
        Err(Failure::Trouble) => 2,
    })
}

// How two runs ended, by the worse of them.
pub fn worse(one: Result<(), Failure>, other: Result<(), Failure>) -> Result<(), Failure>
    ensures { result ≡ worse_of one other }
{
    one.max(other)
}
