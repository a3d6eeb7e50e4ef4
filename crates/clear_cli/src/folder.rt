//! Folders, and the files that are written in them.

ghost use Rattle.std.specs.Prelude.{IfErr, IfOk, OnOk};
ghost use Rattle.clear_cli.specs.Folder.{IsFileLeft, IsFileWritten, IsUnmade, Making, folder_words};

use crate::schedule_text::WriteFault;
use request_lines::{Sink, write_all};

/// What makes files.
pub trait Folder {
    type File: Sink + Drop + Send;

    /// The new files, and the names for which there is none.
    ghost making: { Making Self Self.File };

    /// A new file of this name, in place of one that stands there.
    ///
    /// `Write` where it cannot be made, and `NoMemory` where memory is refused.
    fn make(&mut self, name: &str) -> Result<Self::File, WriteFault>
        ensures made { IfOk result (λ file. making.makes self.old name.now file self.new) }
        ensures unmade { IfErr result (λ fault. IsUnmade making name.now self.old self.new fault) };
}

/// Makes a file and writes its text.
pub fn write_file<O: Folder>(folder: &mut O, name: &str, text: &[u8]) -> Result<(), WriteFault>
    ensures ok { OnOk result (IsFileWritten (folder_words O.making O.File.writing) (record { name = name.now; text = text.now }) folder.old folder.new) }
    ensures err { IfErr result (λ fault. IsFileLeft (folder_words O.making O.File.writing) (record { name = name.now; text = text.now }) folder.old folder.new fault) }
{
    let mut file = folder.make(name)?;
    match write_all(&mut file, text) {
        Ok(()) => Ok(()),
        Err(_) => Err(WriteFault::Write),
    }
}
