//! The whole text of a policy: its lines, with those of included files in the places of the lines that include them.
ghost use Rattle.std.specs.Prelude.{◌≡◌, ◌++◌, List, IfErr, IfOk, IfSome, None, OnOk, Some, map, string_bytes};
ghost use Rattle.std.specs.Str.{bytes_eq};
ghost use Rattle.policy_expand.specs.Inclusions.{AllStand, AreOrdinary, IsWhole, StandsOnce, file_facts, text_of};
ghost use Rattle.policy_expand.specs.Sources.{SourceFacts, source_facts};

use crate::file_lines::{PolicyFile, SourceLine, lines_of_file};
use crate::included_name::{included_name, is_ordinary};
use crate::written_fault::{LineFault, WrittenReason, WrongLine, wrong};
use std::alloc::Global;

/// How deep files may include others.
const MOST_DEEP: usize = 16;

/// The greatest number of lines of a policy with those of included files.
const MOST_LINES: usize = 1_048_576;

// Whether a file has this name.
fn is_named(file: &PolicyFile, name: &[u8]) -> bool
    ensures { result ≡ bytes_eq (string_bytes file.now.name) name.now }
{
    file.name.as_bytes() == name
}

/// The first of these files that has this name.
pub fn file_named<'a>(files: &'a [PolicyFile], name: &[u8]) -> Option<&'a PolicyFile>
    ensures found { IfSome result (λ file. (string_bytes file.now.name ≡ name.now)
        × (text_of name.now (map file_facts files.now) ≡ Some file.now.text.items)) }
    ensures none { result ≡ None → text_of name.now (map file_facts files.now) ≡ None }
{
    let mut rest = files;
    'files: while !rest.is_empty() {
        if is_named(&rest[0], name) {
            return Some(&rest[0]);
        }
        rest = &rest[1..];
    }
    None
}

// The lines that a line stands for before these are looked at: itself, or those of the file that it includes.
fn lines_once<'a>(
    alloc: Global,
    files: &'a [PolicyFile],
    line: &SourceLine<'a>,
) -> Result<Vec<SourceLine<'a>>, LineFault<'a>>
    ensures { IfOk result (λ lines. StandsOnce (map file_facts files.now) (source_facts line.now) (map source_facts lines.items)) }
{
    let Some(name) = included_name(alloc, line)? else {
        let mut lines = Vec::new(alloc);
        lines.push(*line)?;
        return Ok(lines);
    };
    let Some(file) = file_named(files, name.as_bytes()) else {
        return Err(wrong(WrittenReason::TooManyFiles, b""));
    };
    match lines_of_file(alloc, file)? {
        Some(lines) => Ok(lines),
        None => Err(wrong(WrittenReason::NotUtf8, b"")),
    }
}

// Adds the lines that a line stands for before these are looked at.
fn push_lines_once<'a>(
    alloc: Global,
    files: &'a [PolicyFile],
    line: &SourceLine<'a>,
    out: &mut Vec<SourceLine<'a>>,
) -> Result<(), LineFault<'a>>
    ensures { OnOk result ((lines : List SourceFacts) × (map source_facts out.new.items ≡ map source_facts out.old.items ++ lines)
        × StandsOnce (map file_facts files.now) (source_facts line.now) lines) }
{
    let lines = lines_once(alloc, files, line)?;
    out.extend_from_slice(lines.as_slice())?;
    if out.len() > MOST_LINES {
        return Err(wrong(WrittenReason::TooManyLines, b""));
    }
    Ok(())
}

// The lines that lines stand for before these are looked at.
fn all_lines_once<'a>(
    alloc: Global,
    files: &'a [PolicyFile],
    lines: &[SourceLine<'a>],
) -> Result<Vec<SourceLine<'a>>, WrongLine<'a>>
    ensures { IfOk result (λ found. AllStand (StandsOnce (map file_facts files.now)) (map source_facts lines.now)
        (map source_facts found.items)) }
{
    let mut found = Vec::new(alloc);
    for place in 0..lines.len() {
        let line = lines[place];
        match push_lines_once(alloc, files, &line, &mut found) {
            Ok(()) => {}
            Err(fault) => return Err(WrongLine { line, fault }),
        }
    }
    Ok(found)
}

// The first of these lines that includes a file, or is to.
fn first_include<'a>(lines: &[SourceLine<'a>]) -> Option<SourceLine<'a>>
    ensures none { result ≡ None → AreOrdinary (map source_facts lines.now) }
    ensures some { IfSome result (λ _. AreOrdinary (map source_facts lines.now) → ⊥) }
{
    let mut rest = lines;
    'lines: while !rest.is_empty() {
        if !is_ordinary(rest[0].text) {
            return Some(rest[0]);
        }
        rest = &rest[1..];
    }
    None
}

/// The whole text of a policy that has these lines.
pub fn included_lines<'a>(
    alloc: Global,
    files: &'a [PolicyFile],
    lines: Vec<SourceLine<'a>>,
) -> Result<Vec<SourceLine<'a>>, WrongLine<'a>>
    ensures ok { IfOk result (λ whole. IsWhole (map file_facts files.now) (map source_facts lines.entry.items)
        (map source_facts whole.items)) }
    ensures err { IfErr result (λ _. AreOrdinary (map source_facts lines.entry.items) → ⊥) }
{
    let mut lines = lines;
    for _ in 0..MOST_DEEP {
        let Some(_) = first_include(lines.as_slice()) else {
            return Ok(lines);
        };
        lines = all_lines_once(alloc, files, lines.as_slice())?;
    }
    match first_include(lines.as_slice()) {
        None => Ok(lines),
        Some(line) => Err(WrongLine {
            line,
            fault: wrong(WrittenReason::TooDeep, b""),
        }),
    }
}
