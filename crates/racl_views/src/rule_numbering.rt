//! The rules of a policy's text, with their names, numbers and lines.
ghost use Rattle.std.specs.Prelude.{◌≡◌, ◌+◌, ◌<◌, ◌++◌, [], ◌∷◌, List, IfOk, OnOk, length, map};
ghost use Rattle.std.specs.Str.Lines.{lines};
ghost use Rattle.acl_policy.specs.Lines.{LineFacts};
ghost use Rattle.acl_policy.specs.Policies.{IsPolicyText, PolicyFacts};
ghost use Rattle.acl_policy.specs.inner.Reading.Lines.{line_facts};
ghost use Rattle.racl_views.specs.RuleLines.{AreRules, rule_here, rules_from};
ghost use Rattle.racl_views.specs.inner.Spots.{IsBehind, IsShort, listed, said};

use acl_policy::{Line, line_of};
use packet_view::Direction;
use std::alloc::{AllocError, Global};

/// A rule of a policy. Rules are numbered from 1 in each direction of an interface's section.
#[derive(Clone, Copy, Debug, PartialEq, Eq)]
pub struct RuleName {
    pub interface: u8,
    pub direction: Direction,
    pub number: u64,
}

/// A rule, and the line of the policy's text where it stands, counted from 1.
#[derive(Clone, Copy, Debug, PartialEq, Eq)]
pub struct RuleLine {
    pub rule: RuleName,
    pub line: u64,
}

/// What the lines before a spot say of the rules behind it.
#[derive(Clone, Copy)]
pub struct Spot {
    /// The interface whose section goes on.
    pub interface: u8,
    /// How many rules of each direction its section has so far.
    pub inbound: u64,
    pub outbound: u64,
}

// Numbers a rule of the section that goes on at the spot, in the line with this number.
fn numbered(spot: &Spot, direction: Direction, others: u64, line: u64) -> RuleLine
    requires { others < line }
    ensures { result ≡ record { rule = record { interface = spot.now.interface; direction = direction; number = others + 1 }; line = line } }
{
    RuleLine {
        rule: RuleName {
            interface: spot.interface,
            direction,
            number: others + 1,
        },
        line,
    }
}

// Numbers the rule in the line behind the spot, which has this number and says this.
fn numbered_rule_at(spot: &Spot, line: u64, said: Line) -> Option<RuleLine>
    requires { IsShort spot.now line }
    ensures { (before : List LineFacts) → IsBehind before spot.now → line ≡ length before + 1
        → listed result ≡ rule_here before (line_facts said) }
{
    match said {
        Line::Ruled(Direction::Inbound, _) => {
            Some(numbered(spot, Direction::Inbound, spot.inbound, line))
        }
        Line::Ruled(Direction::Outbound, _) => {
            Some(numbered(spot, Direction::Outbound, spot.outbound, line))
        }
        Line::Blank | Line::Begins(_) | Line::Own(_) => None,
    }
}

// While rules are numbered: the spot behind that line.
fn numbering_behind(spot: &Spot, line: u64, said: Line) -> Spot
    requires { IsShort spot.now line }
    ensures { (before : List LineFacts) → IsBehind before spot.now → IsBehind (line_facts said ∷ before) result }
{
    let Spot {
        interface,
        inbound,
        outbound,
    } = *spot;
    match said {
        Line::Begins(interface) => Spot {
            interface,
            inbound: 0,
            outbound: 0,
        },
        Line::Ruled(Direction::Inbound, _) => Spot {
            interface,
            inbound: inbound + 1,
            outbound,
        },
        Line::Ruled(Direction::Outbound, _) => Spot {
            interface,
            inbound,
            outbound: outbound + 1,
        },
        Line::Blank | Line::Own(_) => *spot,
    }
}

// What a line of the text in which rules are numbered says, where it says something.
#[tactic(auto, unfolding(crate::specs::inner::Spots::said))]
fn line_for_numbering(line: &[u8]) -> Line
    ensures { line_facts result ≡ said line.now }
{
    match line_of(line) {
        Some(said) => said,
        None => Line::Blank,
    }
}

// While rules are numbered: passes the line behind the spot, which has this number and says this.
fn number_rules_past_line(
    rules: &mut Vec<RuleLine>,
    spot: &mut Spot,
    line: u64,
    said: Line,
) -> Result<(), AllocError>
    requires { IsShort spot.old line }
    ensures rule { OnOk result ((before : List LineFacts) → IsBehind before spot.old → line ≡ length before + 1
        → rules.new.items ≡ rules.old.items ++ rule_here before (line_facts said)) }
    ensures behind { OnOk result ((before : List LineFacts) → IsBehind before spot.old → IsBehind (line_facts said ∷ before) spot.new) }
{
    if let Some(rule) = numbered_rule_at(spot, line, said) {
        rules.push(rule)?;
    }
    *spot = numbering_behind(spot, line, said);
    Ok(())
}

// Numbers the rules of a policy's text that is UTF-8, with their lines.
fn numbered_rules_in(alloc: Global, text: &str) -> Result<Vec<RuleLine>, AllocError>
    ensures { IfOk result (λ rules. rules.items ≡ rules_from [] (map said (lines text.now))) }
{
    let mut rules = Vec::new(alloc);
    let mut spot = Spot {
        interface: 0,
        inbound: 0,
        outbound: 0,
    };
    let mut number = 0;
    for line in text.lines() {
        number += 1;
        number_rules_past_line(
            &mut rules,
            &mut spot,
            number,
            line_for_numbering(line.as_bytes()),
        )?;
    }
    Ok(rules)
}

/// Numbers the rules of a policy's text in the order of their lines. An `Err` says that memory ran out.
pub fn numbered_rules(alloc: Global, text: &[u8]) -> Result<Vec<RuleLine>, AllocError>
    ensures { IfOk result (λ rules. (policy : PolicyFacts) → IsPolicyText text.now policy → AreRules text.now rules.items) }
{
    match str::from_utf8(text) {
        Ok(text) => numbered_rules_in(alloc, text),
        Err(_) => Ok(Vec::new(alloc)),
    }
}
