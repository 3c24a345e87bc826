//! The plain policy that written lines stand for.
ghost use Rattle.std.specs.Prelude.{◌≡◌, ◌++◌, ◌∷◌, [], List, ℕ, IfErr, IfOk, IsTrue, OnOk, map};
ghost use Rattle.policy_expand.specs.Expansions.{IsBehindExpanded, IsExpansion, IsLineExpanded};
ghost use Rattle.policy_expand.specs.IcmpParts.{IsOfOneIcmp};
ghost use Rattle.policy_expand.specs.Sources.{source_facts};
ghost use Rattle.policy_expand.specs.Written.{LineWritten, list_words};
ghost use Rattle.policy_expand.specs.WrittenLines.{line_written};
ghost use Rattle.policy_expand.specs.Rows;
ghost use Rattle.policy_expand.specs.declared.visible_word.Word.{Word};

use crate::file_lines::SourceLine;
use crate::icmp_of_both_families::icmp_part_of_both;
use crate::plain_text::{mark_of, push_plain_lines};
use crate::rows_of_rule::rule_rows;
use crate::set_lists::NamedSet;
use crate::visible_word::WordList;
use crate::word_reading::words_of_written_line;
use crate::written_fault::{LineFault, WrittenReason, WrongLine, wrong};
use crate::written_line::{Written, read_written_words};
use std::alloc::{AllocError, Global};

/// A plain policy, and where its lines were written.
#[derive(Drop)]
pub struct Expansion {
    pub text: Vec<u8>,
    /// For each line the place of the written one among all, from 0.
    pub origins: Vec<usize>,
}

// The plain lines that a written one stands for, each as its words.
fn plain_rows<'a>(alloc: Global, written: Written<'a>) -> Result<Vec<WordList<'a>>, LineFault<'a>>
    ensures rows { IfOk result (λ rows. Rows.line_rows (line_written written.entry) ≡ map list_words rows.items) }
    ensures icmp { IfOk result (λ _. IsOfOneIcmp (line_written written.entry)) }
{
    match written {
        Written::Nothing => Ok(Vec::new(alloc)),
        Written::Plain(list) => {
            let mut rows = Vec::new(alloc);
            rows.push(list)?;
            Ok(rows)
        }
        Written::Rule(rule) => {
            if let Some(part) = icmp_part_of_both(&rule) {
                return Err(wrong(WrittenReason::IcmpOfBoth, part.bytes));
            }
            let rows = rule_rows(alloc, &rule)?;
            if rows.is_empty() {
                return Err(wrong(WrittenReason::NoFamily, b""));
            }
            Ok(rows)
        }
    }
}

// Adds the plain lines of a written one, and the set that it names.
fn expand_line<'a>(
    alloc: Global,
    sets: &mut Vec<NamedSet<'a>>,
    line: &SourceLine<'a>,
    text: &mut Vec<u8>,
) -> Result<usize, LineFault<'a>>
    ensures { OnOk result ((written : LineWritten) × (rows : List (List Word)) × (added : List ℕ)
        × (text.new.items ≡ text.old.items ++ added)
        × IsLineExpanded sets.old.items (source_facts line.now) sets.new.items written rows added) }
{
    let words = words_of_written_line(alloc, line.text)?;
    let written = read_written_words(alloc, sets, words)?;
    let rows = plain_rows(alloc, written)?;
    let mark = mark_of(alloc, line)?;
    push_plain_lines(text, rows.as_slice(), mark.as_slice())?;
    Ok(rows.len())
}

// Notes the place of a written line for each plain line that it adds.
fn push_origins(origins: &mut Vec<usize>, place: usize, count: usize) -> Result<(), AllocError> {
    for _ in 0..count {
        origins.push(place)?;
    }
    Ok(())
}

/// The plain policy that lines stand for. No clause says that the reason of a fault is right.
pub fn expanded<'a>(alloc: Global, lines: &[SourceLine<'a>]) -> Result<Expansion, WrongLine<'a>>
    ensures ok { IfOk result (λ expansion. IsExpansion (map source_facts lines.now) expansion.text.items) }
    ensures first { IfErr result (λ found. IsBehindExpanded (map source_facts lines.now) (source_facts found.line)) }
{
    let mut sets = Vec::new(alloc);
    let mut text = Vec::new(alloc);
    let mut origins = Vec::new(alloc);
    for place in 0..lines.len() {
        let count = match expand_line(alloc, &mut sets, &lines[place], &mut text) {
            Ok(count) => count,
            Err(fault) => {
                return Err(WrongLine {
                    line: lines[place],
                    fault,
                });
            }
        };
        if push_origins(&mut origins, place, count).is_err() {
            return Err(WrongLine {
                line: lines[place],
                fault: LineFault::Memory,
            });
        }
    }
    Ok(Expansion { text, origins })
}
