//! The words of a line, and what a word says.
ghost use Rattle.std.specs.Prelude.{◌≡◌, ◌<◌, ◌++◌, ◌∷◌, [], IfSome, IsTrue, MatchOption};
ghost use Rattle.packet_view.specs.Addresses.{address_limit};
ghost use Rattle.acl_policy.specs.Lines.{IsInterface, action_word, direction_word, family_word};
ghost use Rattle.acl_policy.specs.Numerals.{IsNumber};
ghost use Rattle.acl_policy.specs.Prefixes.{IsAddress, IsMac, IsPrefix};
ghost use Rattle.acl_policy.specs.Traffic.{IsFlags, IsProtocol, IsRange};
ghost use Rattle.acl_policy.specs.Words.{words_of};
ghost use Rattle.policy_check.specs.Reasons.{Reads};

use acl_policy::Action;
use packet_view::{Direction, Family, Mac};

/// Reads the first word of a text that is checked: the word, and what follows it.
pub fn read_next_word(text: &[u8]) -> Option<(&[u8], &[u8])>
    ensures { MatchOption result (words_of text.now ≡ []) (λ r. words_of text.now ≡ r.0.now ∷ words_of r.1.now) }
{
    acl_policy::next_word(text)
}

/// Reads a word of a checked policy: whether it is this one.
pub fn is_read_word(word: &[u8], name: &[u8]) -> bool
    ensures { IsTrue result → word.now ≡ name.now }
{
    word == name
}

/// Reads a word of a checked line up to a byte: what stands in front of it, and what behind it.
pub fn cut_word_at(word: &[u8], byte: u8) -> Option<(&[u8], &[u8])>
    ensures { IfSome result (λ r. word.now ≡ r.0.now ++ byte ∷ r.1.now) }
{
    acl_policy::cut_at(word, byte)
}

/// Reads the direction that a word of a checked line says.
pub fn read_direction_word(word: &[u8]) -> Option<Direction>
    ensures { Reads result (λ d. word.now ≡ direction_word d) }
{
    acl_policy::direction_of_word(word)
}

/// Reads the action that a word of a checked line says.
pub fn read_action_word(word: &[u8]) -> Option<Action>
    ensures { Reads result (λ a. word.now ≡ action_word a) }
{
    acl_policy::action_of_word(word)
}

/// Reads the family that a word of a checked line says.
pub fn read_family_word(word: &[u8]) -> Option<Family>
    ensures { Reads result (λ f. word.now ≡ family_word f) }
{
    acl_policy::family_of_word(word)
}

/// Reads the prefix that a word of a checked line says.
pub fn read_prefix_word(family: Family, word: &[u8]) -> Option<(u128, u8)>
    ensures { Reads result (IsPrefix family word.now) }
{
    acl_policy::prefix_of(family, word)
}

/// Reads the address that a word of a checked line says.
pub fn read_address_word(family: Family, word: &[u8]) -> Option<u128>
    ensures value { Reads result (IsAddress family word.now) }
    ensures fits { IfSome result (λ address. address < address_limit family) }
{
    acl_policy::address_of(family, word)
}

/// Reads the number that a word of a checked line says.
pub fn read_number_word(word: &[u8]) -> Option<u32>
    ensures { Reads result (IsNumber word.now) }
{
    acl_policy::number_of(word)
}

/// Reads the protocol that a word of a checked line says.
pub fn read_protocol_word(family: Family, word: &[u8]) -> Option<u8>
    ensures { Reads result (IsProtocol family word.now) }
{
    acl_policy::protocol_of(family, word)
}

/// Reads the range that a word of a checked line says.
pub fn read_range_word(word: &[u8], most: u16) -> Option<(u16, u16)>
    ensures { Reads result (IsRange most word.now) }
{
    acl_policy::range_of(word, most)
}

/// Reads the flags and their mask that a word of a checked line says.
pub fn read_flags_word(word: &[u8]) -> Option<(u8, u8)>
    ensures { Reads result (IsFlags word.now) }
{
    acl_policy::flags_of_word(word)
}

/// Reads the MAC address that a word of a checked line says.
pub fn read_mac_word(word: &[u8]) -> Option<Mac>
    ensures { Reads result (IsMac word.now) }
{
    acl_policy::mac_of(word)
}

/// Reads the number of an interface that a word of a checked line says.
pub fn read_interface_word(word: &[u8]) -> Option<u8>
    ensures { Reads result (IsInterface word.now) }
{
    acl_policy::interface_of_word(word)
}
