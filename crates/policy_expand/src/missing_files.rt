//! Which included file is to be read next.
ghost use Rattle.std.specs.Prelude.{IfOk, IfSome, map, string_bytes};
ghost use Rattle.policy_expand.specs.Inclusions.{file_facts};
ghost use Rattle.policy_expand.specs.Meaning.{IsOneOf};
ghost use Rattle.policy_expand.specs.Missing.{IsMissing};
ghost use Rattle.policy_expand.specs.Sources.{SourceFacts, file_lines, source_facts};

use crate::file_lines::{PolicyFile, SourceLine, lines_of_file};
use crate::included_name::included_name;
use crate::inclusion::file_named;
use crate::written_fault::LineFault;
use std::alloc::{AllocError, Global};

/// A file that a line includes and that isn't read yet.
#[derive(Drop)]
pub struct MissingFile {
    /// The number of the line, from 1.
    pub number: u64,
    pub name: String,
}

// The file that a line includes, where it is none of these.
fn missing_in(
    alloc: Global,
    line: &SourceLine<'_>,
    files: &[PolicyFile],
) -> Result<Option<MissingFile>, AllocError>
    ensures { IfOk result (λ found. IfSome found (IsMissing (map file_facts files.now) (source_facts line.now))) }
{
    let name = match included_name(alloc, line) {
        Ok(Some(name)) => name,
        Err(LineFault::Memory) => return Err(AllocError),
        _ => return Ok(None),
    };
    match file_named(files, name.as_bytes()) {
        Some(_) => Ok(None),
        None => Ok(Some(MissingFile {
            number: line.number,
            name,
        })),
    }
}

// The first file that lines include and that is none of these.
fn missing_among(
    alloc: Global,
    lines: &[SourceLine<'_>],
    files: &[PolicyFile],
) -> Result<Option<MissingFile>, AllocError>
    ensures { IfOk result (λ found. IfSome found (λ missing. (line : SourceFacts) × IsOneOf line (map source_facts lines.now)
        × IsMissing (map file_facts files.now) line missing)) }
{
    for line in lines {
        if let Some(missing) = missing_in(alloc, line, files)? {
            return Ok(Some(missing));
        }
    }
    Ok(None)
}

/// The first file that a file includes and that is none of these. One that isn't UTF-8 includes none.
pub fn missing_file(
    alloc: Global,
    file: &PolicyFile,
    files: &[PolicyFile],
) -> Result<Option<MissingFile>, AllocError>
    ensures { IfOk result (λ found. IfSome found (λ missing. (line : SourceFacts)
        × IsOneOf line (file_lines (string_bytes file.now.name) file.now.text.items)
        × IsMissing (map file_facts files.now) line missing)) }
{
    match lines_of_file(alloc, file)? {
        Some(lines) => missing_among(alloc, lines.as_slice(), files),
        None => Ok(None),
    }
}
