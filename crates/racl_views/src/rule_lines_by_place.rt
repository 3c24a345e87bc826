//! The lines of rules, each at its rule's place.
ghost use Rattle.std.specs.Prelude.{◌≡◌, ◌<◌, ◌==◌, ◌^◌, ◌∷◌, ℕ, List, IfOk, IfSome, OnOk, get_or, if◌then◌else◌};
ghost use Rattle.racl_views.specs.declared.rule_numbering.RuleLine as code;
ghost use Rattle.racl_views.specs.Entries.{line_deciding};
ghost use Rattle.racl_views.specs.inner.EntryLists.{AreAtPlaces};
ghost use Rattle.racl_views.specs.inner.Tellings.{IsTableOf};

use crate::place_of_rule::{number_at, place, reach_rule_place};
use crate::rule_numbering::{RuleLine, RuleName, numbered_rules};
use crate::rule_table::RuleTable;
use crate::rule_texts_in_policy::texts_of;
use std::alloc::{AllocError, Global};

// Sets the line that stands at a place, which is that of a rule.
fn set_line(lines: &mut Vec<u64>, place: usize, line: u64) -> Result<(), AllocError>
    ensures { OnOk result ((k : ℕ) → get_or lines.new.items k 0 ≡ (if place == k then line else get_or lines.old.items k 0)) }
{
    reach_rule_place(lines, place)?;
    lines[place] = line;
    Ok(())
}

// Puts the line of a rule before others at its place. No verdict has a number of more than 16 bits.
fn set_rule(lines: &mut Vec<u64>, at: &RuleLine) -> Result<(), AllocError>
    ensures { (rules : List code.RuleLine) → AreAtPlaces lines.old.items rules → OnOk result (AreAtPlaces lines.new.items (at.now ∷ rules)) }
{
    if at.rule.number > u64::from(u16::MAX) {
        return Ok(());
    }
    set_line(lines, place(&at.rule) as usize, at.line)
}

// The lines of rules, each at the place of its rule.
fn lines_at_places(alloc: Global, rules: &[RuleLine]) -> Result<Vec<u64>, AllocError>
    ensures { IfOk result (λ lines. AreAtPlaces lines.items rules.now) }
{
    let mut lines = Vec::new(alloc);
    for i in (0..rules.len()).rev() {
        set_rule(&mut lines, &rules[i])?;
    }
    Ok(lines)
}

/// The lines of a policy's rules by their places, with what is shown of the rules. An `Err` says that memory ran out.
pub fn rule_table_by_place(alloc: Global, text: &[u8]) -> Result<RuleTable<'_>, AllocError>
    ensures { IfOk result (IsTableOf text.now) }
{
    let rules = numbered_rules(alloc, text)?;
    let lines = lines_at_places(alloc, &rules)?;
    let texts = texts_of(alloc, text)?;
    Ok(RuleTable {
        rules,
        lines,
        texts,
    })
}

/// The line of a rule that decided, among the lines by place, and 0 where none did.
pub fn line_of(lines: &[u64], rule: Option<RuleName>) -> u64
    requires interface { IfSome rule (λ r. r.interface < 2 ^ 8) }
    requires number { IfSome rule (λ r. r.number < 2 ^ 16) }
    ensures { (rules : List code.RuleLine) → AreAtPlaces lines.now rules → result ≡ line_deciding rules rule }
{
    match rule {
        Some(rule) => number_at(lines, &rule),
        None => 0,
    }
}
