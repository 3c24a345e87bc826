//! Where a name leads, so that two names of one file are known as such.
ghost use Rattle.std.specs.Prelude.{◌≡◌, ◌≢◌, IfErr, MatchResult};
ghost use Rattle.std.specs.IoError.{error_kind};
ghost use Rattle.racl_system.specs.Places;

use std::alloc::Global;
use std::fs::{Metadata, metadata, read_link};
use std::io;
use std::io::ErrorKind;
use std::os::unix::fs::{FileTypeExt, MetadataExt};
use std::path::PathBuf;

/// How many links a name may lead through (Linux: 40).
const MOST_LINKS: usize = 40;

/// What the system knows a file or a folder by: the device that has it, and its number there.
#[derive(Clone, Copy, Debug, PartialEq, Eq)]
pub struct FileNumber {
    pub device: u64,
    pub inode: u64,
}

/// Where a name leads.
#[derive(Drop)]
pub enum NamedPlace {
    /// To a file that may be named once: a regular one, or a pipe that is read.
    Standing(FileNumber),
    /// To no file yet: the folder in which it would be created, and its name there.
    Unmade(FileNumber, String),
    /// To a device or a pipe that may be named twice, or nobody can tell where.
    Unknown,
}

/// Whether two places are of one file.
pub fn is_one_file(one: &NamedPlace, other: &NamedPlace) -> bool
    ensures { result ≡ Places.is_one_file one.now other.now }
{
    match (one, other) {
        (NamedPlace::Standing(number), NamedPlace::Standing(another)) => {
            number.device == another.device && number.inode == another.inode
        }
        (NamedPlace::Unmade(folder, name), NamedPlace::Unmade(another, other_name)) => {
            folder.device == another.device
                && folder.inode == another.inode
                && name.as_str() == other_name.as_str()
        }
        _ => false,
    }
}

fn number_of(found: &Metadata) -> FileNumber {
    FileNumber {
        device: found.dev(),
        inode: found.ino(),
    }
}

// The place of a name that the system refuses to look at. Memory that ran out is told: the place may be one of another
// name.
fn place_refused(error: io::Error) -> io::Result<NamedPlace>
    ensures { MatchResult result (λ place. (place ≡ NamedPlace.Unknown) × (error_kind error ≢ ErrorKind.OutOfMemory))
        (λ told. error_kind told ≡ ErrorKind.OutOfMemory) }
{
    if error.kind() == ErrorKind::OutOfMemory {
        Err(error)
    } else {
        Ok(NamedPlace::Unknown)
    }
}

// Where a file of this path would be created, which is none and no link.
fn place_in_folder(rt: &HostRuntime, alloc: Global, path: &PathBuf) -> io::Result<NamedPlace>
    ensures { IfErr result (λ told. error_kind told ≡ ErrorKind.OutOfMemory) }
{
    let (Some(folder), Some(name)) = (path.parent(), path.file_name()) else {
        return Ok(NamedPlace::Unknown);
    };
    let folder = folder.as_str();
    match metadata(rt, if folder.is_empty() { "." } else { folder }) {
        Ok(found) => Ok(NamedPlace::Unmade(number_of(&found), String::from_str(alloc, name)?)),
        Err(error) => place_refused(error),
    }
}

// Where a file of this name would be created, which is none: behind links that lead to none, where the name is one.
fn unmade_place(rt: &HostRuntime, alloc: Global, name: &str) -> io::Result<NamedPlace>
    ensures { IfErr result (λ told. error_kind told ≡ ErrorKind.OutOfMemory) }
{
    let mut path = PathBuf::from_str(alloc, name)?;
    for _ in 0..MOST_LINKS {
        match read_link(rt, path.as_str()) {
            Ok(target) => {
                // What a link names is seen from the folder that it is in.
                path.pop();
                path.push(target.as_str())?;
            }
            Err(error) if error.kind() == ErrorKind::OutOfMemory => return Err(error),
            Err(_) => return place_in_folder(rt, alloc, &path),
        }
    }
    Ok(NamedPlace::Unknown)
}

/// Where this name leads. An `Err` says that memory ran out. No clause says where names lead, since that is the system's:
/// `tests/run` looks at it.
pub fn place_of(rt: &HostRuntime, alloc: Global, name: &str) -> io::Result<NamedPlace>
    ensures { IfErr result (λ told. error_kind told ≡ ErrorKind.OutOfMemory) }
{
    match metadata(rt, name) {
        Ok(found) if found.is_file() => Ok(NamedPlace::Standing(number_of(&found))),
        Ok(_) => Ok(NamedPlace::Unknown),
        Err(error) if error.kind() == ErrorKind::NotFound => unmade_place(rt, alloc, name),
        Err(error) => place_refused(error),
    }
}

/// Where this name leads, if to a pipe, whose bytes two readers would share. No clause says where names lead, as of `place_of`.
pub fn place_of_pipe(rt: &HostRuntime, name: &str) -> NamedPlace {
    match metadata(rt, name) {
        Ok(found) if found.file_type().is_fifo() => NamedPlace::Standing(number_of(&found)),
        _ => NamedPlace::Unknown,
    }
}
