//! The files of a written policy, and their lines.
ghost use Rattle.std.specs.Prelude.{◌≡◌, IfNone, IfOk, IfSome, map, string_bytes};
ghost use Rattle.std.specs.Str.{IsUtf8};
ghost use Rattle.policy_expand.specs.Sources.{file_lines, source_facts};

use std::alloc::{AllocError, Global};

/// A file that was read.
#[derive(Drop)]
pub struct PolicyFile {
    /// The name by which it was opened and is told.
    pub name: String,
    pub text: Vec<u8>,
}

/// A line, and the file and the number by which it is told.
#[derive(Clone, Copy)]
pub struct SourceLine<'a> {
    /// The file's name.
    pub file: &'a str,
    /// Its number in the file, from 1.
    pub number: u64,
    pub text: &'a [u8],
}

// The lines of a file with this name and text.
fn lines_of_text<'a>(
    alloc: Global,
    file: &'a str,
    text: &'a str,
) -> Result<Vec<SourceLine<'a>>, AllocError>
    ensures { IfOk result (λ found. map source_facts found.items ≡ file_lines file.now text.now) }
{
    let mut found = Vec::new(alloc);
    for line in text.lines() {
        let number = found.len() as u64 + 1;
        found.push(SourceLine {
            file,
            number,
            text: line.as_bytes(),
        })?;
    }
    Ok(found)
}

/// The lines of a file. None: it isn't UTF-8.
pub fn lines_of_file<'a>(
    alloc: Global,
    file: &'a PolicyFile,
) -> Result<Option<Vec<SourceLine<'a>>>, AllocError>
    ensures some { IfOk result (λ found. IfSome found (λ lines. map source_facts lines.items
        ≡ file_lines (string_bytes file.now.name) file.now.text.items)) }
    ensures none { IfOk result (λ found. IfNone found (IsUtf8 file.now.text.items → ⊥)) }
{
    match str::from_utf8(file.text.as_slice()) {
        Ok(text) => Ok(Some(lines_of_text(alloc, file.name.as_str(), text)?)),
        Err(_) => Ok(None),
    }
}
