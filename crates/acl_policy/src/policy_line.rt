//! What a line of a policy says.
ghost use Rattle.std.specs.Prelude.{◌≡◌, ◌≤◌, ◌<◌, IfSome, option_map};
ghost use Rattle.acl_policy.specs.inner.Reading.Lines.{ends_in, head_in, heading_in, line_facts, line_in, own_line_in, rule_line_in};
ghost use Rattle.acl_policy.specs.Widths.{width};
ghost use Rattle.acl_policy.specs.Words.{words_of};
ghost use Rattle.packet_view.specs.Addresses.{address_limit};

use crate::line_words::{before_comment, is_end, next_word};
use crate::mac::mac_of;
use crate::policy_line_words::{
    action_of_word, direction_of_word, family_of_word, interface_of_word,
};
use crate::prefix::prefix_of;
use crate::protocol_parts::traffic_of;
use crate::rule::{Action, Rule};
use packet_view::{Direction, Family, Mac};

/// What a line says: nothing, the beginning of an interface's section, the interface's own address, or a rule of a
/// direction.
#[derive(Clone, Copy)]
pub enum Line {
    Blank,
    Begins(u8),
    Own(Mac),
    Ruled(Direction, Rule),
}

/// The first three words of a policy's line that is a rule, and the text after them.
#[tactic(auto, unfolding(crate::specs::inner::Reading::Lines::head_in))]
fn head_of(text: &[u8]) -> Option<(Direction, Action, Family, &[u8])>
    ensures { option_map (λ r. (r.0, r.1, r.2, words_of r.3.now)) result ≡ head_in (words_of text.now) }
{
    let (word, text) = next_word(text)?;
    let direction = direction_of_word(word)?;
    let (word, text) = next_word(text)?;
    let action = action_of_word(word)?;
    let (word, text) = next_word(text)?;
    let family = family_of_word(word)?;
    Some((direction, action, family, text))
}

/// The prefixes of a policy's line that is a rule, and the text after them.
#[tactic(auto, unfolding(crate::specs::inner::Reading::Lines::ends_in))]
fn ends_of(family: Family, text: &[u8]) -> Option<((u128, u8), (u128, u8), &[u8])>
    ensures value { option_map (λ r. (r.0, r.1, words_of r.2.now)) result
        ≡ ends_in family (words_of text.now) }
    ensures source_fits { IfSome result (λ r. r.0.0 < address_limit family) }
    ensures source_length { IfSome result (λ r. r.0.1 ≤ width family) }
    ensures dest_fits { IfSome result (λ r. r.1.0 < address_limit family) }
    ensures dest_length { IfSome result (λ r. r.1.1 ≤ width family) }
{
    let (word, text) = next_word(text)?;
    let source = prefix_of(family, word)?;
    let (word, text) = next_word(text)?;
    let dest = prefix_of(family, word)?;
    Some((source, dest, text))
}

#[tactic(auto, unfolding(crate::specs::inner::Reading::Lines::rule_line_in))]
fn rule_line_of(text: &[u8]) -> Option<Line>
    ensures { option_map line_facts result ≡ rule_line_in (words_of text.now) }
{
    let (direction, action, family, text) = head_of(text)?;
    let (source, dest, text) = ends_of(family, text)?;
    let traffic = traffic_of(family, text)?;
    let rule = Rule {
        action,
        family,
        source,
        dest,
        proto: traffic.proto,
        first: traffic.first,
        second: traffic.second,
        value: traffic.value,
        mask: traffic.mask,
    };
    Some(Line::Ruled(direction, rule))
}

#[tactic(auto, unfolding(crate::specs::inner::Reading::Lines::own_line_in))]
fn own_line_of(text: &[u8]) -> Option<Line>
    ensures { option_map line_facts result ≡ own_line_in (words_of text.now) }
{
    let (word, text) = next_word(text)?;
    let mac = mac_of(word)?;
    if is_end(text) {
        Some(Line::Own(mac))
    } else {
        None
    }
}

#[tactic(auto, unfolding(crate::specs::inner::Reading::Lines::heading_in))]
fn heading_of(text: &[u8]) -> Option<Line>
    ensures { option_map line_facts result ≡ heading_in (words_of text.now) }
{
    let (word, text) = next_word(text)?;
    let interface = interface_of_word(word)?;
    if is_end(text) {
        Some(Line::Begins(interface))
    } else {
        None
    }
}

/// What a line says. `None`: it is of no form.
#[tactic(auto, unfolding(crate::specs::inner::Reading::Lines::line_in, crate::specs::inner::Reading::Lines::said_in))]
pub fn line_of(line: &[u8]) -> Option<Line>
    ensures { option_map line_facts result ≡ line_in line.now }
{
    let text = before_comment(line);
    let Some((word, rest)) = next_word(text) else {
        return Some(Line::Blank);
    };
    if word == b"mac".as_slice() {
        own_line_of(rest)
    } else if word == b"interface".as_slice() {
        heading_of(rest)
    } else {
        rule_line_of(text)
    }
}
