//! What is wrong with words that write no packet.
ghost use Rattle.std.specs.Prelude.{◌≡◌, option_map};
ghost use Rattle.acl_policy.specs.Words.{words_of};
ghost use Rattle.packet_questions.specs.Forms.{form_behind, form_in, form_named, way_in};

use crate::question_words::place_of;
use crate::word_numbers::second_of;
use acl_policy::{direction_of_word, next_word};
use thiserror::Error;

/// What is missing in words that write no packet, by the first place where that is known.
#[derive(Clone, Copy, Debug, PartialEq, Eq, Error)]
pub enum Form {
    #[error("in or out stands first, or behind a second of 0 to 4294967295")]
    Way,
    #[error("behind `if` stands a number of 0 to 255")]
    Place,
    #[error("tcp ADDRESS PORT ADDRESS PORT flags VV")]
    Tcp,
    #[error("udp ADDRESS PORT ADDRESS PORT")]
    Udp,
    #[error("icmp ADDRESS ADDRESS type N code N")]
    Icmp,
    #[error("fragment PROTO ADDRESS ADDRESS")]
    Fragment,
    #[error("tcp, udp, icmp, fragment, or the number of another protocol, ADDRESS ADDRESS")]
    Other,
}

// The words behind a packet's direction, where it has one.
fn behind_way(text: &[u8]) -> Option<&[u8]>
    ensures { option_map (λ rest. words_of rest.now) result ≡ way_in (words_of text.now) }
{
    let (word, rest) = next_word(text)?;
    if direction_of_word(word).is_some() {
        return Some(rest);
    }
    second_of(word)?;
    let (word, rest) = next_word(rest)?;
    direction_of_word(word)?;
    Some(rest)
}

// The form that the word asks for which names a protocol.
#[tactic(auto, unfolding(crate::specs::Forms::form_named))]
fn form_of_protocol(word: &[u8]) -> Form
    ensures { result ≡ form_named word.now }
{
    if word == b"tcp".as_slice() {
        return Form::Tcp;
    }
    if word == b"udp".as_slice() {
        return Form::Udp;
    }
    if word == b"icmp".as_slice() {
        return Form::Icmp;
    }
    if word == b"fragment".as_slice() {
        return Form::Fragment;
    }
    Form::Other
}

/// What is wrong with a text, where it writes no packet.
pub fn form_of(text: &[u8]) -> Form
    ensures { result ≡ form_in (words_of text.now) }
{
    let Some(text) = behind_way(text) else {
        return Form::Way;
    };
    let Some((_, text)) = place_of(text) else {
        return Form::Place;
    };
    match next_word(text) {
        None => Form::Other,
        Some((word, _)) => form_of_protocol(word),
    }
}
