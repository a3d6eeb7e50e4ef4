//! Errors of a house that does not finish, and of texts that are not written.

ghost use Rattle.std.specs.Prelude.{◌≡◌};
ghost use Rattle.clear_cli.specs.Fault.{finish_fault, write_fault};

use crate::schedule_text::WriteFault;
use command_line::Fault;
use shared_house::FinishFault;

pub fn finish_fault(cause: FinishFault) -> Fault<'static>
    ensures { result ≡ finish_fault cause }
{
    match cause {
        FinishFault::MissingPass => Fault::FinishMissingPass,
        FinishFault::Torn { entry } => Fault::FinishTorn { entry },
        FinishFault::NoMemory => Fault::NoMemory,
    }
}

impl From<WriteFault> for Fault<'_> {
    ghost from_gives = { λ cause fault. fault ≡ write_fault cause };

    fn from(cause: WriteFault) -> Self {
        match cause {
            WriteFault::Write => Fault::CannotWrite,
            WriteFault::NoMemory => Fault::NoMemory,
        }
    }
}
