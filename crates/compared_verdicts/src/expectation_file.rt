//! What a file of expectations says.
ghost use Rattle.std.specs.Prelude.{◌≡◌, ◌≢◌, ◌⊎◌, ◌++◌, List, IfErr, IfOk, MatchResult, None, OnOk, Some, map};
ghost use Rattle.std.specs.Str.Lines.{lines};
ghost use Rattle.compared_verdicts.specs.Expectations.{line_in};
ghost use Rattle.compared_verdicts.specs.Files.{IsExpectationFault, IsExpectationText, expected_at, expected_from, first_wrong, wrong_at};
ghost use Rattle.compared_verdicts.specs.declared.expectation.Expectation.{Expectation};
ghost use Rattle.compared_verdicts.specs.inner.Reading.{line_text};

use crate::expectation::{Expectation, Line};
use crate::expectation_fault::ExpectationFault;
use crate::expectation_line::line_of;
use std::alloc::{AllocError, Global};

// The lines of a text.
fn lines_of<'a>(alloc: Global, text: &'a str) -> Result<Vec<&'a [u8]>, AllocError>
    ensures { IfOk result (λ found. map line_text found.items ≡ lines text.entry.now) }
{
    let mut found = Vec::new(alloc);
    for line in text.lines() {
        found.push(line.as_bytes())?;
    }
    Ok(found)
}

// Reads a line with this number, whose expectation joins the others.
fn read_line(found: &mut Vec<Expectation>, number: u64, text: &[u8]) -> Result<(), ExpectationFault>
    ensures right { OnOk result (wrong_at number (line_in text.now) None ≡ None) }
    ensures says { OnOk result (found.new.items ≡ found.old.items ++ expected_at number (line_in text.now)) }
    ensures fault { IfErr result (λ fault. fault ≢ ExpectationFault.Memory → wrong_at number (line_in text.now) None ≡ Some fault) }
{
    match line_of(text) {
        Ok(Line::Blank) => Ok(()),
        Ok(Line::Expects(expected)) => {
            found.push(Expectation {
                line: number,
                expected,
            })?;
            Ok(())
        }
        Err(reason) => Err(ExpectationFault::BadLine(number, reason)),
    }
}

// Reads lines.
fn read_lines(alloc: Global, texts: &[&[u8]]) -> Result<Vec<Expectation>, ExpectationFault>
    ensures right { IfOk result (λ _. first_wrong 1 (map line_text texts.now) ≡ None) }
    ensures says { IfOk result (λ found. found.items ≡ expected_from 1 (map line_text texts.now)) }
    ensures fault { IfErr result (λ fault. fault ≢ ExpectationFault.Memory → first_wrong 1 (map line_text texts.now) ≡ Some fault) }
{
    let mut found = Vec::new(alloc);
    let mut rest = texts;
    'lines: while !rest.is_empty() {
        let number = (texts.len() - rest.len() + 1) as u64;
        match read_line(&mut found, number, rest[0]) {
            Ok(()) => {}
            Err(fault) => return Err(fault),
        }
        rest = &rest[1..];
    }
    Ok(found)
}

/// Reads what a text expects, in the order of its lines. An `Err` other than `Memory` names the first fault: bytes that aren't
/// UTF-8 anywhere in the text, and else the first line that is wrong.
pub fn read_expectations(alloc: Global, text: &[u8]) -> Result<Vec<Expectation>, ExpectationFault>
    ensures ok { IfOk result (λ found. IsExpectationText text.now found.items) }
    ensures fault { IfErr result (λ fault. fault ≢ ExpectationFault.Memory → IsExpectationFault text.now fault) }

    // What is right is refused for want of memory alone, and what has a fault gets it, or memory ran out.
    ensures accepts { (expectations : List Expectation) → IsExpectationText text.now expectations
        → MatchResult result (λ found. found.items ≡ expectations) (λ fault. fault ≡ ExpectationFault.Memory) }
    ensures refuses { (fault : ExpectationFault) → IsExpectationFault text.now fault
        → MatchResult result (λ _. ⊥) (λ found. (found ≡ fault) ⊎ (found ≡ ExpectationFault.Memory)) }
{
    let Ok(text) = str::from_utf8(text) else {
        return Err(ExpectationFault::NotUtf8);
    };
    let texts = lines_of(alloc, text)?;
    read_lines(alloc, texts.as_slice())
}
