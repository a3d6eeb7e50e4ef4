//! The words of the command line.

ghost use Rattle.std.specs.Prelude.{◌≡◌, ◌≢◌, IfErr};

use crate::fault::Fault;
use std::env::{self, Env};
use std::io::ErrorKind;

/// The words of the command line, the program's name first. One that is no UTF-8 is a fault of usage.
pub fn given_words<R: Env + AllocGlobal>(rt: &R) -> Result<Vec<String>, Fault<'static>>
    ensures { IfErr result (λ fault. fault ≢ Fault.NoMemory → fault ≡ Fault.Usage) }
{
    let args = match env::args(rt) {
        Ok(args) => args,
        Err(error) if error.kind() == ErrorKind::OutOfMemory => return Err(Fault::NoMemory),
        Err(_) => return Err(Fault::Usage),
    };
    Ok(args.collect::<Vec<String>>(rt.alloc())?)
}
