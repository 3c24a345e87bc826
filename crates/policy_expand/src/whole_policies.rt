//! The whole text of a policy in files.
ghost use Rattle.std.specs.Prelude.{IfOk, map};
ghost use Rattle.policy_expand.specs.Inclusions.{file_facts};
ghost use Rattle.policy_expand.specs.WholePolicies.{IsWholeOf};

use crate::file_lines::{PolicyFile, SourceLine, lines_of_file};
use crate::inclusion::included_lines;
use crate::told_expansion::told_fault;
use std::alloc::{AllocError, Global};

/// The lines of a policy and of the files that it includes, or what is wrong with one.
#[derive(Drop)]
pub enum Whole<'a> {
    Lines(Vec<SourceLine<'a>>),
    Faults(String),
}

// The number of the line in which the text of a file stops being UTF-8.
fn line_that_breaks(text: &[u8]) -> u64 {
    let right = match str::from_utf8(text) {
        Ok(_) => text,
        Err(error) => &text[..error.valid_up_to()],
    };
    let ended = right.iter().filter(|byte| **byte == b'\n').count();
    (ended as u64).saturating_add(1)
}

/// The whole text of the first of these files, which may include the others. Where there is none, nothing is told. An `Err`
/// says that memory ran out.
#[tactic(auto, using(crate::proofs::InclusionLemmas::first_file))]
pub fn whole_policy<'a>(alloc: Global, files: &'a [PolicyFile]) -> Result<Whole<'a>, AllocError>
    ensures { IfOk result (IsWholeOf (map file_facts files.now)) }
{
    let [first, ..] = files else {
        return Ok(Whole::Faults(String::new(alloc)));
    };
    let Some(lines) = lines_of_file(alloc, first)? else {
        let file = first.name.as_bytes().escape_ascii();
        let number = line_that_breaks(first.text.as_slice());
        return Ok(Whole::Faults(format!(in alloc; "racl: {file}:{number}: is not UTF-8\n")?));
    };
    match included_lines(alloc, files, lines) {
        Ok(lines) => Ok(Whole::Lines(lines)),
        Err(found) => Ok(Whole::Faults(told_fault(alloc, found)?)),
    }
}
