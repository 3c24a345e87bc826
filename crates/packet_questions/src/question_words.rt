//! Questions in words.
ghost use Rattle.std.specs.Prelude.{◌≡◌, IfSome, Some, option_map};
ghost use Rattle.acl_policy.specs.Words.{words_of};
ghost use Rattle.packet_questions.specs.Questions.{IsQuestion, QuestionFacts, question_facts};
ghost use Rattle.packet_questions.specs.inner.Reading.{place_in, question_in, seen_in};

use crate::carried::carried_of;
use crate::ends::text_behind;
use crate::word_numbers::second_of;
use acl_policy::{direction_of_word, next_word, octet_of};
use packet_view::{Direction, Tuple};

/// A packet that is asked about.
#[derive(Clone, Copy)]
pub struct Question {
    /// When it is seen, in seconds.
    pub moment: u32,
    pub direction: Direction,
    pub tuple: Tuple,
}

/// The interface by the words with which a text begins, and what follows them.
#[tactic(auto, unfolding(crate::specs::inner::Reading::place_in))]
pub fn place_of(text: &[u8]) -> Option<(u8, &[u8])>
    ensures { option_map (λ r. (r.0, words_of r.1.now)) result ≡ place_in (words_of text.now) }
{
    let Some(rest) = text_behind(text, b"if") else {
        return Some((0, text));
    };
    let (word, rest) = next_word(rest)?;
    let interface = octet_of(word)?;
    Some((interface, rest))
}

// The packet that a text asks about behind its second and its direction.
#[tactic(auto, unfolding(crate::specs::inner::Reading::seen_in))]
fn question_seen(moment: u32, direction: Direction, text: &[u8]) -> Option<Question>
    ensures { option_map question_facts result ≡ seen_in moment direction (words_of text.now) }
{
    let (interface, text) = place_of(text)?;
    let tuple = carried_of(interface, text)?;
    Some(Question {
        moment,
        direction,
        tuple,
    })
}

// The packet that a text asks about, where the one before was seen in this second.
#[tactic(auto, unfolding(crate::specs::inner::Reading::question_in))]
fn question_read(before: u32, text: &[u8]) -> Option<Question>
    ensures { option_map question_facts result ≡ question_in before (words_of text.now) }
{
    let (word, text) = next_word(text)?;
    if let Some(direction) = direction_of_word(word) {
        return question_seen(before, direction, text);
    }
    let moment = second_of(word)?;
    let (word, text) = next_word(text)?;
    let direction = direction_of_word(word)?;
    question_seen(moment, direction, text)
}

/// The packet that a text asks about, where the one before was seen in this second. `None`: it writes no packet.
pub fn question_of(before: u32, text: &[u8]) -> Option<Question>
    ensures found { IfSome result (λ q. IsQuestion before (words_of text.now) (question_facts q)) }
    ensures accepts { (q : QuestionFacts) → IsQuestion before (words_of text.now) q → option_map question_facts result ≡ Some q }
{
    question_read(before, text)
}
