//! The texts of rules, as their lines have them.
ghost use Rattle.std.specs.Prelude.{◌≡◌, ◌-◌, ◌<◌, ◌≤◌, [], IfOk, get_or, length, map, take};
ghost use Rattle.std.specs.List.{list_all};
ghost use Rattle.std.specs.Str.{IsUtf8};
ghost use Rattle.acl_policy.specs.Words.{without_comment};
ghost use Rattle.racl_views.specs.RuleTexts;
ghost use Rattle.racl_views.specs.RuleTexts.{from_word, rule_texts, shown_of, shown_or, without_end};

use crate::rule_table::RuleText;
use acl_policy::{before_comment, is_blank, word_start};
use std::alloc::{AllocError, Global};

/// How many bytes of a rule are shown at most.
const MOST_SHOWN: usize = 200;

// Whether a byte is shown of a comment of a rule.
fn is_shown_byte(byte: u8) -> bool
    ensures { result ≡ RuleTexts.is_shown_byte byte }
{
    byte >= 32 && byte < 127 || byte == b'\t'
}

// Whether all bytes of a rule's line are shown.
fn is_shown_whole(line: &[u8]) -> bool
    ensures { result ≡ list_all RuleTexts.is_shown_byte line.now }
{
    let mut rest = line;
    'bytes: while !rest.is_empty() {
        if !is_shown_byte(rest[0]) {
            return false;
        }
        rest = &rest[1..];
    }
    true
}

// A text where all its bytes are shown of a rule, and else another.
fn rule_text_or<'a>(other: &'a [u8], text: &'a [u8]) -> &'a [u8]
    ensures { result.now ≡ shown_or other.now text.now }
{
    if is_shown_whole(text) { text } else { other }
}

// A rule's line with its comment, where that is shown.
fn rule_line_with_comment(line: &[u8]) -> &[u8]
    ensures { result.now ≡ shown_or (shown_or [] (without_comment line.now)) line.now }
{
    rule_text_or(rule_text_or(&[], before_comment(line)), line)
}

// The text of a policy's line from its first word on, where what is shown of a rule begins.
fn rule_text_after_blanks(text: &[u8]) -> &[u8]
    ensures { result.now ≡ from_word text.now }
{
    match word_start(text) {
        Some(start) => &text[start..],
        None => &[],
    }
}

// The text of a policy's line without the blanks at its end, which aren't shown of a rule.
fn rule_text_before_blanks(text: &[u8]) -> &[u8]
    ensures { result.now ≡ without_end text.now }
{
    let mut kept = text;
    'blanks: while let Some((last, others)) = kept.split_last() {
        if !is_blank(*last) {
            return kept;
        }
        kept = others;
    }
    kept
}

// As many bytes of a rule's text as are shown at most.
fn rule_text_cut(text: &[u8]) -> &[u8]
    ensures text { result.now ≡ take 200 text.now }
    ensures short { length result.now ≤ 200 }
{
    if text.len() < MOST_SHOWN {
        return text;
    }
    &text[..MOST_SHOWN]
}

// The text of a rule from its bytes.
fn rule_text_of(bytes: &[u8]) -> RuleText<'_>
    requires { length bytes.now ≤ 200 }
    ensures { IsUtf8 bytes.now → shown_of result ≡ bytes.now }
{
    match str::from_utf8(bytes) {
        Ok(text) => RuleText { text },
        Err(_) => RuleText { text: "" },
    }
}

// What is shown of a line.
fn rule_text(line: &[u8]) -> RuleText<'_>
    ensures { shown_of result ≡ RuleTexts.rule_text line.now }
{
    let words = rule_text_after_blanks(rule_line_with_comment(line));
    rule_text_of(rule_text_cut(rule_text_before_blanks(words)))
}

fn texts_in<'a>(alloc: Global, text: &'a str) -> Result<Vec<RuleText<'a>>, AllocError>
    ensures { IfOk result (λ texts. map shown_of texts.items ≡ rule_texts text.now) }
{
    let mut texts = Vec::new(alloc);
    for line in text.lines() {
        texts.push(rule_text(line.as_bytes()))?;
    }
    Ok(texts)
}

/// What is shown of each line of a policy's text. An `Err` says that memory ran out.
pub fn texts_of<'a>(alloc: Global, text: &'a [u8]) -> Result<Vec<RuleText<'a>>, AllocError>
    ensures { IfOk result (λ texts. IsUtf8 text.now → map shown_of texts.items ≡ rule_texts text.now) }
{
    match str::from_utf8(text) {
        Ok(text) => texts_in(alloc, text),
        Err(_) => Ok(Vec::new(alloc)),
    }
}

/// What is shown of the line with this number, counted from 1, and nothing where there is none. Of 0 it is that of 1.
pub fn text_at<'a>(texts: &'a [RuleText<'a>], line: u64) -> &'a str
    ensures text { result.now ≡ get_or (map shown_of texts.now) (line - 1) [] }
    ensures short { length result.now ≤ 200 }
{
    let place = line.saturating_sub(1) as usize;
    if place < texts.len() {
        texts[place].text
    } else {
        ""
    }
}
