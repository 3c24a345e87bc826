//! What C is told of a policy's text.
ghost use Rattle.std.specs.Prelude.{◌≡◌};
ghost use Rattle.racl_views.specs.Entries.{line_among, line_deciding};
ghost use Rattle.racl_views.specs.Deciding.{same_rule};
ghost use Rattle.racl_c.specs.Texts.{CheckTold, IsWritten, LineTold, rule_named};

use crate::answer_numbers::{BAD_LINE, DONE, MEMORY, Made, fault_answer};
use acl_policy::PolicyFault;
use packet_view::Direction;
use policy_check::tell;
use racl_views::{RuleLine, RuleName, numbered_rules};
use std::alloc::Global;

/// What a check came to: whether the text says a policy, and how many bytes the lines have that tell of it.
#[repr(C)]
#[derive(Clone, Copy, Debug, PartialEq, Eq)]
pub struct Checked {
    pub kind: u32,
    pub length: u64,
}

// Writes of these bytes as many as there is room for.
fn write_front(told: &[u8], buffer: &mut [u8])
    ensures { IsWritten told.now buffer.old buffer.new }
{
    let count = told.len().min(buffer.len());
    buffer[..count].copy_from_slice(&told[..count]);
}

/// Checks a policy's text, and writes the lines that `racl check` tells of it, as far as there is room for them.
#[unsafe(no_mangle)]
pub extern "C" fn racl_check(alloc: Global, text: &[u8], buffer: &mut [u8]) -> Checked
    ensures { CheckTold text.now buffer.old buffer.new result }
{
    let Ok(told) = tell(alloc, text) else {
        return Checked {
            kind: MEMORY,
            length: 0,
        };
    };
    let lines = told.text.as_slice();
    write_front(lines, buffer);
    let length = lines.len() as u64;
    if told.is_policy {
        return Checked { kind: DONE, length };
    }
    Checked {
        kind: BAD_LINE,
        length,
    }
}

// The rule with this number, of the direction with that number, as answers have them.
fn rule_with(interface: u8, direction: u32, rule: u32) -> Option<RuleName>
    ensures { result ≡ rule_named interface direction rule }
{
    let number = u64::from(rule);
    match direction {
        1 => Some(RuleName {
            interface,
            direction: Direction::Inbound,
            number,
        }),
        2 => Some(RuleName {
            interface,
            direction: Direction::Outbound,
            number,
        }),
        _ => None,
    }
}

// Whether these are the same rule.
fn is_same(one: &RuleName, other: &RuleName) -> bool
    ensures { result ≡ same_rule one.now other.now }
{
    let same_way = match (one.direction, other.direction) {
        (Direction::Inbound, Direction::Inbound) | (Direction::Outbound, Direction::Outbound) => {
            true
        }
        _ => false,
    };
    one.interface == other.interface && (same_way && one.number == other.number)
}

// The line of a rule, among all rules of a policy's text, and 0 where it is none of them.
fn line_of(rules: &[RuleLine], rule: &RuleName) -> u64
    ensures { result ≡ line_among rules.now rule.now }
{
    'rules: for at in rules {
        if is_same(&at.rule, rule) {
            return at.line;
        }
    }
    0
}

// The line of a rule, where there is one.
fn line_named(rules: &[RuleLine], rule: Option<RuleName>) -> u64
    ensures { result ≡ line_deciding rules.now rule }
{
    match rule {
        Some(rule) => line_of(rules, &rule),
        None => 0,
    }
}

/// The line of a policy's text in which a rule stands that answers number so, and 0 where there is no such rule.
#[unsafe(no_mangle)]
pub extern "C" fn racl_line_of(
    alloc: Global,
    text: &[u8],
    interface: u8,
    direction: u32,
    rule: u32,
) -> Made
    ensures { LineTold text.now (rule_named interface direction rule) result }
{
    let Ok(rules) = numbered_rules(alloc, text) else {
        return fault_answer(PolicyFault::Memory);
    };
    let line = line_named(&rules, rule_with(interface, direction, rule));
    Made { kind: DONE, line }
}
