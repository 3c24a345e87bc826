//! The files that names lead to.
ghost use Rattle.std.specs.Prelude.{◌≡◌, ℕ, List, Option, None, IfOk, IsTrue, OnOk, false};
ghost use Rattle.racl_options.specs.Origins.{is_standard};

use crate::draft::{Draft, created_draft};
use std::fs::{File, Metadata, remove_file};
use std::io;
use std::io::{IsTerminal, Read, Stdin, Stdout, Write};

/// The number of the system's reason for what a folder refuses (Linux: EISDIR).
const IS_A_DIRECTORY: i32 = 21;

/// An `Err` where a folder was found, whose bytes can't be read.
pub fn refuse_folder(found: &Metadata) -> io::Result<()> {
    if found.is_dir() {
        return Err(io::Error::from_raw_os_error(IS_A_DIRECTORY));
    }
    Ok(())
}

/// What the program asks of a system that has files by names. Where these tell their bytes, so does all that stands on
/// them. The operating system's don't: `tests/run` looks at what a name opens there.
pub trait SystemFiles {
    type Input: Read + IsTerminal + Drop;

    type Output: Write + Drop;

    type File: Read + Drop;

    /// A file that packets are saved in.
    type Save: Write + Drop;

    /// The bytes that are read by a name, where they are known: of `-` those of standard input.
    ghost named: { Self → List ℕ → Option (List ℕ) };

    /// The bytes that the file has that is to be the one of a name, before it is written, where they are known.
    ghost emptied: { Self → List ℕ → Option (List ℕ) };

    /// The bytes of a file that are on its device, where they are known.
    ghost synced: { Self.Save → Option (List ℕ) };

    fn standard_input(&self, name: &str) -> Self::Input
        requires { IsTrue (is_standard name.now) }
        ensures { Self.Input.remaining result ≡ named self.now name.now };

    fn standard_output(&self) -> Self::Output;

    /// The file of a name, to be read. A folder is refused.
    fn opened_file(&self, name: &str) -> io::Result<Self::File>
        requires { is_standard name.now ≡ false }
        ensures { IfOk result (λ file. Self.File.remaining file ≡ named self.now name.now) };

    /// A file that is to be the one of a name, whatever that is, to be written.
    fn created_save(&self, name: &str) -> io::Result<Self::Save>
        ensures { IfOk result (λ file. Self.Save.contents file ≡ emptied self.now name.now) };

    /// Puts on its device what was written to a file, so that a write that was delayed and that failed is told, and has it
    /// be the file of its name.
    fn settle(&self, file: &mut Self::Save) -> io::Result<()>
        ensures bytes { Self.Save.contents file.new ≡ Self.Save.contents file.old }
        ensures synced { OnOk result (synced file.new ≡ Self.Save.contents file.new) };
}

impl SystemFiles for HostRuntime {
    type Input = Stdin;

    type Output = Stdout;

    type File = File;

    type Save = Draft;

    ghost named = { λ _ _. None };

    ghost emptied = { λ _ _. None };

    ghost synced = { λ _. None };

    fn standard_input(&self, _name: &str) -> Stdin {
        self.stdin()
    }

    fn standard_output(&self) -> Stdout {
        self.stdout()
    }

    fn opened_file(&self, name: &str) -> io::Result<File> {
        let file = File::open(self, name)?;
        refuse_folder(&file.metadata()?)?;
        Ok(file)
    }

    fn created_save(&self, name: &str) -> io::Result<Draft> {
        created_draft(self, self.alloc(), name)
    }

    // A draft that doesn't become the file of its name is removed. The toolchain tells nothing of how closing ends.
    fn settle(&self, file: &mut Draft) -> io::Result<()> {
        let settled = file.settle(self);
        if settled.is_err()
            && let Some(beside) = file.beside()
        {
            let _ = remove_file(self, beside);
        }
        settled
    }
}
