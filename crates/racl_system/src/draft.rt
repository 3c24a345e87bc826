//! Files that are written beside those that they become, so that what fails leaves a file as it was.
ghost use Rattle.std.specs.Prelude.{◌≡◌, ◌↔◌, IfErr, IfOk, IfSome, IsTrue, None, option_map, string_bytes};
ghost use Rattle.std.specs.IoError.{raw_os_error};
ghost use Rattle.racl_options.specs.Behind.{text_behind};
ghost use Rattle.racl_system.specs.Drafts.{IsBeside};
ghost use Rattle.racl_system.specs.Syncs.{IsNeverSynced};

use std::alloc::Global;
use std::fs::{File, Metadata, canonicalize, metadata, remove_file, rename, symlink_metadata};
use std::io;
use std::io::{ErrorKind, Write};
use std::os::unix::fs::MetadataExt;

/// The numbers of the system's reasons where there is nothing to be synced (Linux: EINVAL, ENOTSUP).
const INVALID: i32 = 22;

const NOT_SUPPORTED: i32 = 95;

/// How many names are tried for a file beside another.
const MOST_TRIED: u32 = 100;

// The names of a file beside another, and of that one.
#[derive(Drop)]
struct Names {
    beside: String,
    target: String,
}

/// A file that is written. Where there are names it is one beside that which it becomes.
#[derive(Drop)]
pub struct Draft {
    file: File,
    names: Option<Names>,
}

// What is replaced by a draft: its name behind all links, and what is known of it, where it is there.
#[derive(Drop)]
struct Target {
    name: String,
    found: Option<Metadata>,
}

// Whether the reason why a file can't be synced is that such a file never can.
fn is_never_synced(reason: &io::Error) -> bool
    ensures { IsTrue result ↔ IsNeverSynced (raw_os_error reason.now) }
{
    matches!(reason.raw_os_error(), Some(INVALID | NOT_SUPPORTED))
}

// Syncs a regular file; of others there is nothing to be synced.
fn sync_regular(file: &File) -> io::Result<()> {
    if file.metadata()?.is_file() {
        return file.sync_all();
    }
    Ok(())
}

// Syncs a file that was written, where files of its kind can be.
fn sync_written(file: &File) -> io::Result<()>
    ensures { IfErr result (λ reason. IsNeverSynced (raw_os_error reason) → ⊥) }
{
    match sync_regular(file) {
        Err(reason) if !is_never_synced(&reason) => Err(reason),
        _ => Ok(()),
    }
}

// What a draft by this name replaces. None where the file is written in place: a device or a pipe, a file of several names,
// and one behind a link to no file. Who may not write to a file may not replace it.
fn draft_target(rt: &HostRuntime, alloc: Global, name: &str) -> io::Result<Option<Target>> {
    match metadata(rt, name) {
        Ok(found) if found.is_file() && found.nlink() == 1 => {
            File::options().write(true).open(rt, name)?;
            let path = canonicalize(rt, name)?;
            Ok(Some(Target {
                name: String::from_str(alloc, path.as_str())?,
                found: Some(found),
            }))
        }
        Err(reason)
            if reason.kind() == ErrorKind::NotFound && symlink_metadata(rt, name).is_err() => {
            Ok(Some(Target {
                name: String::from_str(alloc, name)?,
                found: None,
            }))
        }
        _ => Ok(None),
    }
}

// Whether the file of a draft has the owner and gets the permissions of what it replaces.
fn takes_after(file: &File, found: &Metadata) -> io::Result<bool> {
    let made = file.metadata()?;
    if made.uid() != found.uid() || made.gid() != found.gid() {
        return Ok(false);
    }
    file.set_permissions(found.permissions())?;
    Ok(true)
}

// The draft of a target. None where there can be none in its folder, or none that takes after it.
fn draft_beside(rt: &HostRuntime, alloc: Global, target: Target) -> io::Result<Option<Draft>>
    ensures { IfOk result (λ draft. IfSome draft (λ made. IfSome made.names (λ names.
        IsBeside (string_bytes names.target) (string_bytes names.beside)))) }
{
    let Target {
        name: target,
        found,
    } = target;
    for number in 0..MOST_TRIED {
        let beside = format!(in alloc; "{target}.{number}.part")?;
        let file = match File::create_new(rt, beside.as_str()) {
            Ok(file) => file,
            Err(reason) if reason.kind() == ErrorKind::AlreadyExists => continue,
            Err(_) => return Ok(None),
        };
        if let Some(found) = &found
            && !matches!(takes_after(&file, found), Ok(true))
        {
            let _ = remove_file(rt, beside.as_str());
            return Ok(None);
        }
        let names = Some(Names { beside, target });
        return Ok(Some(Draft { file, names }));
    }
    Ok(None)
}

// The draft of a file, None where there can be none.
fn draft_of(rt: &HostRuntime, alloc: Global, name: &str) -> io::Result<Option<Draft>>
    ensures { IfOk result (λ draft. IfSome draft (λ made. IfSome made.names (λ names.
        IsBeside (string_bytes names.target) (string_bytes names.beside)))) }
{
    match draft_target(rt, alloc, name)? {
        Some(target) => draft_beside(rt, alloc, target),
        None => Ok(None),
    }
}

/// The file of a name to be written: a draft; or the file itself, which is created or emptied, where there can be no draft
/// or memory runs out. No clause says what becomes of files, since that is the system's: `tests/run` looks at it.
pub fn created_draft(rt: &HostRuntime, alloc: Global, name: &str) -> io::Result<Draft>
    ensures { IfOk result (λ made. IfSome made.names (λ names. IsBeside (string_bytes names.target) (string_bytes names.beside))) }
{
    match draft_of(rt, alloc, name) {
        Ok(Some(draft)) => return Ok(draft),
        Err(reason) if reason.kind() != ErrorKind::OutOfMemory => return Err(reason),
        _ => {}
    }
    Ok(Draft {
        file: File::create(rt, name)?,
        names: None,
    })
}

impl Draft {
    /// The name of the file beside the one that it becomes, where there is one: who gives the draft up removes it.
    pub fn beside(&self) -> Option<&str>
        ensures { text_behind result ≡ option_map (λ names. string_bytes names.beside) self.now.names }
    {
        match &self.names {
            Some(names) => Some(names.beside.as_str()),
            None => None,
        }
    }

    /// Syncs what was written, and has it become the file of its name.
    pub fn settle(&self, rt: &HostRuntime) -> io::Result<()>
        ensures { self.now.names ≡ None → IfErr result (λ reason. IsNeverSynced (raw_os_error reason) → ⊥) }
    {
        match (sync_written(&self.file), &self.names) {
            (Ok(()), Some(names)) => rename(rt, names.beside.as_str(), names.target.as_str()),
            (result, _) => result,
        }
    }
}

impl Write for Draft {
    fn write(&mut self, buf: &[u8]) -> io::Result<usize> {
        self.file.write(buf)
    }

    fn flush(&mut self) -> io::Result<()> {
        self.file.flush()
    }
}
