//! Lines of the report that say of their packets what these are, and which rule decided.
ghost use Rattle.std.specs.Prelude.{◌≡◌, ◌+◌, ◌≤◌, ◌++◌, length, map};
ghost use Rattle.racl_views.specs.Entries.{entry_facts};
ghost use Rattle.racl_views.specs.ExplainedLines.{decided_text, explained_line, head_of};
ghost use Rattle.racl_views.specs.RuleTexts.{shown_of};

use crate::packet_entry::{Entry, PacketPlace};
use crate::rule_table::RuleText;
use crate::rule_texts_in_policy::text_at;
use packet_words::{push_numbered, push_packet, push_verdict};
use racl_io::{Numeral, Piece, push_name};
use session_state::Verdict;

// What an explained line begins with: the report's line of the packet, up to its line feed.
fn push_explained_head(piece: &mut Piece, named: Option<u8>, number: u64, verdict: Verdict)
    requires { length piece.old + 95 ≤ 262144 }
    ensures text { piece.new ≡ piece.old ++ head_of named number verdict }
    ensures short { length piece.new ≤ length piece.old + 95 }
{
    Numeral::of(number).push(piece);
    piece.push(b" ");
    push_name(piece, named);
    push_verdict(piece, verdict);
}

// What an explained line ends with, where a rule decided: the line of this rule in the policy, and its text.
fn push_explained_rule<'a>(piece: &mut Piece, texts: &'a [RuleText<'a>], line: u64)
    requires { length piece.old + 233 ≤ 262144 }
    ensures text { piece.new ≡ piece.old ++ decided_text (map shown_of texts.now) line }
    ensures short { length piece.new ≤ length piece.old + 233 }
{
    if line == 0 {
        return;
    }
    push_numbered(piece, b" | line ", line);
    piece.push(b" ");
    piece.push(text_at(texts, line).as_bytes());
}

/// The line of the packet with this number.
pub fn push_explained<'a>(
    piece: &mut Piece,
    texts: &'a [RuleText<'a>],
    place: PacketPlace,
    entry: &Entry,
)
    requires { length piece.old + 742 ≤ 262144 }
    ensures text { piece.new ≡ piece.old ++ explained_line (map shown_of texts.now) place.named place.number (entry_facts entry.now) }
    ensures short { length piece.new ≤ length piece.old + 742 }
{
    push_explained_head(piece, place.named, place.number, entry.verdict);
    push_packet(piece, entry.interface, entry.moment, &entry.frame);
    push_explained_rule(piece, texts, entry.line);
    piece.push(b"\n");
}
