//! The words of a policy's line: a direction, an action, a family, and the number of an interface.
ghost use Rattle.std.specs.Prelude.{◌≡◌};
ghost use Rattle.acl_policy.specs.inner.Reading.Lines.{action_in, direction_in, family_in, interface_in};

use crate::number_parsing::number_up_to;
use crate::rule::Action;
use packet_view::{Direction, Family};

/// A word of a policy's line that says a direction.
pub fn direction_of_word(word: &[u8]) -> Option<Direction>
    ensures { result ≡ direction_in word.now }
{
    match word {
        b"in" => Some(Direction::Inbound),
        b"out" => Some(Direction::Outbound),
        _ => None,
    }
}

/// A word of a policy's line that says an action.
pub fn action_of_word(word: &[u8]) -> Option<Action>
    ensures { result ≡ action_in word.now }
{
    if word == b"deny".as_slice() {
        return Some(Action::Deny);
    }
    if word == b"permit".as_slice() {
        return Some(Action::Permit);
    }
    if word == b"permit+reflect".as_slice() {
        return Some(Action::Reflect);
    }
    None
}

/// A word of a policy's line that says a family.
pub fn family_of_word(word: &[u8]) -> Option<Family>
    ensures { result ≡ family_in word.now }
{
    match word {
        b"ipv4" => Some(Family::V4),
        b"ipv6" => Some(Family::V6),
        _ => None,
    }
}

/// The words of a policy's line that begin the section of an interface: its number.
#[tactic(auto, unfolding(crate::specs::inner::Reading::Lines::interface_in))]
pub fn interface_of_word(word: &[u8]) -> Option<u8>
    ensures { result ≡ interface_in word.now }
{
    let number = number_up_to(word, u16::from(u8::MAX))?;
    if number == 0 {
        return None;
    }
    Some(number as u8)
}
