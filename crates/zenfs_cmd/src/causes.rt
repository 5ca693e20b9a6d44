// What errors of a change are to the utility.
ghost use Rattle.command_model.specs.Options.{Word};
ghost use Rattle.zenfs_cmd.specs.Reasons.{IsCauseOf, IsFailure, IsFailureOf, IsJudgement};
ghost use Rattle.zenfs_cmd.specs.Words.{command_asked};

use crate::words::Asked;
use fs_model::FsError;
use fs_report::Cause;

/// Why a change is refused that was judged so.
pub(crate) fn cause_of<'a>(asked: Asked<'a>, error: FsError) -> Cause<'a>
    requires { (at : Word) → IsJudgement (command_asked at asked) error }
    ensures { (at : Word) → IsCauseOf (command_asked at asked.entry) error result }
{
    match error {
        FsError::NotFound => Cause::NotFound(asked.source()),
        FsError::Exists => Cause::NameExists(asked.target()),
        FsError::SequenceEnd => Cause::SequenceEnd,
        FsError::MetaFull { need, capacity } => Cause::MetaFull { need, capacity },
        FsError::Stopped => unreachable!(),
        FsError::Gone => unreachable!(),
        FsError::InUse => unreachable!(),
        FsError::IdsEnd => unreachable!(),
        FsError::NoSpace => unreachable!(),
        FsError::Busy => unreachable!(),
        FsError::NoMemory => unreachable!(),
        FsError::DevFault => unreachable!(),
    }
}

/// Why a change isn't written that was judged right.
pub(crate) fn failure_of<'a>(error: FsError) -> Cause<'a>
    requires { IsFailure error }
    ensures { IsFailureOf error result }
{
    match error {
        FsError::NoMemory => Cause::NoMemory,
        FsError::DevFault => Cause::DeviceFault,
        FsError::Stopped => unreachable!(),
        FsError::Gone => unreachable!(),
        FsError::InUse => unreachable!(),
        FsError::NotFound => unreachable!(),
        FsError::Exists => unreachable!(),
        FsError::IdsEnd => unreachable!(),
        FsError::SequenceEnd => unreachable!(),
        FsError::MetaFull { .. } => unreachable!(),
        FsError::NoSpace => unreachable!(),
        FsError::Busy => unreachable!(),
    }
}
