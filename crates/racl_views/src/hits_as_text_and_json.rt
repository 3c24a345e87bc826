//! What is told of hits, in lines or objects.
ghost use Rattle.std.specs.Prelude.{◌≡◌, ◌+◌, ◌≤◌, ◌++◌, [], ◌∷◌, ℕ, List, Option, OnOk, IfOk, codes, length, map};
ghost use Rattle.std.specs.List.{flat_map};
ghost use Rattle.packet_view.specs.CheckedCaptures.{remaining};
ghost use Rattle.acl_policy.specs.Policies.{IsPolicyText, policy_facts};
ghost use Rattle.session_state.specs.declared.verdict.Verdict.{Verdict};
ghost use Rattle.racl_views.specs.HitCounts.{CountReasons, HaveCounted};
ghost use Rattle.racl_views.specs.Hits;
ghost use Rattle.racl_views.specs.Hits.{IsHits, hit_line, hit_told, reason_hits, rule_hits, session_hits};
ghost use Rattle.racl_views.specs.Objects.{number, object_line, object_of};
ghost use Rattle.packet_words.specs.PacketWords.{numbered};
ghost use Rattle.racl_views.specs.RuleTexts.{shown_of};
ghost use Rattle.racl_views.specs.RunEntries.{RunFacts, run_facts};
ghost use Rattle.session_state.specs.declared.timeouts.Timeouts as session;
ghost use Rattle.racl_views.specs.Stored.{StoredFacts, stored_facts};
ghost use Rattle.racl_views.specs.CountedSessions.{sessions_by};
ghost use Rattle.racl_views.specs.declared.hit_counts.Hit.TheVariants.{Rule, Unruled};
ghost use Rattle.racl_views.specs.declared.rule_numbering.RuleName.{RuleName};
ghost use Rattle.racl_views.specs.inner.Counts.{Count};

use crate::counting_reasons::{NoRule, ReasonCounts};
use crate::hit_counts::{Hit, HitCounts, latest_second};
use crate::json_fields::{
    add_line, add_number, add_string, add_way, begin_json_object, end_json_object,
};
use crate::place_of_rule::number_at;
use crate::rule_numbering::{RuleLine, numbered_rules};
use crate::rule_table::RuleText;
use crate::rule_texts_in_policy::{text_at, texts_of};
use crate::run_and_verdicts::Run;
use crate::session_counts::{SessionCounts, StoredPairs, count_sessions};
use crate::sessions_as_text_and_json::{TextOrJson, append_line_text};
use packet_view::Direction;
use packet_words::push_numbered;
use racl_io::Piece;
use session_state::Timeouts;
use std::alloc::{AllocError, Global};

// The words that say the direction of a rule in the line of its hits.
fn way_word(direction: Direction) -> &'static [u8]
    ensures word { result.now ≡ Hits.way_word direction }
    ensures short { length result.now ≤ 10 }
{
    match direction {
        Direction::Inbound => b" in rule ",
        Direction::Outbound => b" out rule ",
    }
}

// The word for a reason in the hits, as text and in JSON.
fn word_of(reason: NoRule) -> &'static str
    ensures word { result.now ≡ Hits.word_of reason }
    ensures short { length result.now ≤ 9 }
{
    match reason {
        NoRule::Session => "session",
        NoRule::ByDefault => "default",
        NoRule::Full => "full",
        NoRule::Worn => "worn",
        NoRule::NoPages => "no-pages",
        NoRule::NotIp => "not-ip",
        NoRule::Malformed => "malformed",
        NoRule::Short => "short",
    }
}

// The line among the hits of how many packets a rule decided.
fn push_rule<'a>(piece: &mut Piece, texts: &'a [RuleText<'a>], at: RuleLine, count: u64)
    requires { length piece.old + 402 ≤ 262144 }
    ensures { piece.new ≡ piece.old ++ hit_line (map shown_of texts.now) (Rule at count) }
{
    push_numbered(piece, b"interface ", u64::from(at.rule.interface));
    push_numbered(piece, way_word(at.rule.direction), at.rule.number);
    push_numbered(piece, b" line ", at.line);
    push_numbered(piece, b" packets ", count);
    piece.push(b" | ");
    piece.push(text_at(texts, at.line).as_bytes());
    piece.push(b"\n");
}

// The line among the hits of how many packets a reason decided that is no rule.
fn push_reason(piece: &mut Piece, reason: NoRule, count: u64)
    requires { length piece.old + 199 ≤ 262144 }
    ensures { piece.new ≡ piece.old ++ hit_line [] (Unruled reason count) }
{
    piece.push(word_of(reason).as_bytes());
    push_numbered(piece, b" packets ", count);
    piece.push(b"\n");
}

// The line of a count among the hits.
fn push_hit_count(piece: &mut Piece, word: &'static [u8], count: u64)
    requires { length piece.old + length word.now + 25 ≤ 262144 }
    ensures { piece.new ≡ piece.old ++ (numbered word.now count ++ codes "\n") }
{
    push_numbered(piece, word, count);
    piece.push(b"\n");
}

// The line of a hit.
fn push_hit<'a>(piece: &mut Piece, texts: &'a [RuleText<'a>], hit: Hit)
    requires { length piece.old + 402 ≤ 262144 }
    ensures { piece.new ≡ piece.old ++ hit_line (map shown_of texts.now) hit }
{
    match hit {
        Hit::Rule(at, count) => push_rule(piece, texts, at, count),
        Hit::Unruled(reason, count) => push_reason(piece, reason, count),
        Hit::Entered(count) => push_hit_count(piece, b"sessions entered ", count),
        Hit::Matched(count) => push_hit_count(piece, b"sessions matched ", count),
        Hit::Expired(count) => push_hit_count(piece, b"sessions expired ", count),
    }
}

// The object among the hits of how many packets a rule decided, behind a text.
fn rule_object<'a>(
    text: Vec<u8>,
    texts: &'a [RuleText<'a>],
    at: RuleLine,
    count: u64,
) -> Result<Vec<u8>, AllocError>
    ensures { IfOk result (λ new. new.items ≡ text.items ++ object_line (Hits.hit_object (map shown_of texts.now) (Rule at count))) }
{
    let mut object = begin_json_object(&text)?;
    add_number(&mut object, "interface", u64::from(at.rule.interface))?;
    add_way(&mut object, at.rule.direction)?;
    add_number(&mut object, "rule", at.rule.number)?;
    add_line(&mut object, texts, at.line)?;
    add_number(&mut object, "packets", count)?;
    end_json_object(object, text)
}

// The object among the hits of how many packets a reason decided that is no rule, behind a text.
fn reason_object(text: Vec<u8>, reason: NoRule, count: u64) -> Result<Vec<u8>, AllocError>
    ensures { IfOk result (λ new. new.items ≡ text.items ++ object_line (Hits.hit_object [] (Unruled reason count))) }
{
    let mut object = begin_json_object(&text)?;
    add_string(&mut object, "reason", word_of(reason))?;
    add_number(&mut object, "packets", count)?;
    end_json_object(object, text)
}

// The object of a count among the hits, behind a text.
fn hit_count_object(text: Vec<u8>, key: &str, count: u64) -> Result<Vec<u8>, AllocError>
    ensures { IfOk result (λ new. new.items ≡ text.items ++ object_line (object_of (number key.now count ∷ []))) }
{
    let mut object = begin_json_object(&text)?;
    add_number(&mut object, key, count)?;
    end_json_object(object, text)
}

// The object of a hit behind a text.
fn hit_object<'a>(text: Vec<u8>, texts: &'a [RuleText<'a>], hit: Hit) -> Result<Vec<u8>, AllocError>
    ensures { IfOk result (λ new. new.items ≡ text.items ++ object_line (Hits.hit_object (map shown_of texts.now) hit)) }
{
    match hit {
        Hit::Rule(at, count) => rule_object(text, texts, at, count),
        Hit::Unruled(reason, count) => reason_object(text, reason, count),
        Hit::Entered(count) => hit_count_object(text, "sessions_entered", count),
        Hit::Matched(count) => hit_count_object(text, "sessions_matched", count),
        Hit::Expired(count) => hit_count_object(text, "sessions_expired", count),
    }
}

// What is told of a hit behind a text. The piece is room for it.
fn tell_hit<'a>(
    text: Vec<u8>,
    piece: &mut Piece,
    view: TextOrJson,
    texts: &'a [RuleText<'a>],
    hit: Hit,
) -> Result<Vec<u8>, AllocError>
    ensures { IfOk result (λ new. new.items ≡ text.items ++ hit_told view (map shown_of texts.now) hit) }
{
    match view {
        TextOrJson::Text => {
            piece.clear();
            push_hit(piece, texts, hit);
            append_line_text(text, piece)
        }
        TextOrJson::Json => hit_object(text, texts, hit),
    }
}

// What is told of hits.
fn tell_hits<'a>(
    alloc: Global,
    view: TextOrJson,
    texts: &'a [RuleText<'a>],
    hits: &[Hit],
) -> Result<Vec<u8>, AllocError>
    ensures { IfOk result (λ told. told.items ≡ flat_map (hit_told view (map shown_of texts.now)) hits.now) }
{
    let mut piece = Piece::new(alloc)?;
    let mut text = Vec::new(alloc);
    'hits: for hit in hits {
        text = tell_hit(text, &mut piece, view, texts, *hit)?;
    }
    Ok(text)
}

// Hits that are told as text or JSON: those of rules behind others, by the counts of all.
fn push_rule_hits_to_tell(
    hits: &mut Vec<Hit>,
    counts: &[u64],
    rules: &[RuleLine],
) -> Result<(), AllocError>
    ensures { OnOk result ((deciding : List (Option RuleName)) → Count counts.now deciding
        → hits.new.items ≡ hits.old.items ++ rule_hits deciding rules.now) }
{
    'rules: for at in rules {
        hits.push(Hit::Rule(*at, number_at(counts, &at.rule)))?;
    }
    Ok(())
}

// Hits that are told as text or JSON: those of the reasons that are no rules, by their counts, behind others.
fn push_reason_hits_to_tell(hits: &mut Vec<Hit>, counts: &ReasonCounts) -> Result<(), AllocError>
    ensures { OnOk result ((verdicts : List Verdict) → CountReasons verdicts counts.now → hits.new.items ≡ hits.old.items ++ reason_hits verdicts) }
{
    hits.extend_from_slice(&[
        Hit::Unruled(NoRule::Session, counts.session),
        Hit::Unruled(NoRule::ByDefault, counts.by_default),
        Hit::Unruled(NoRule::Full, counts.full),
        Hit::Unruled(NoRule::Worn, counts.worn),
        Hit::Unruled(NoRule::NoPages, counts.no_pages),
        Hit::Unruled(NoRule::NotIp, counts.not_ip),
        Hit::Unruled(NoRule::Malformed, counts.malformed),
        Hit::Unruled(NoRule::Short, counts.short),
    ])?;
    Ok(())
}

// Hits that are told as text or JSON: those of sessions, by their counts, behind others.
fn push_session_hits_to_tell(hits: &mut Vec<Hit>, counts: SessionCounts) -> Result<(), AllocError>
    ensures { OnOk result (hits.new.items ≡ hits.old.items ++ session_hits counts) }
{
    hits.extend_from_slice(&[
        Hit::Entered(counts.entered),
        Hit::Matched(counts.matched),
        Hit::Expired(counts.expired),
    ])?;
    Ok(())
}

// The hits of rules, by the counts of their packets, of other verdicts, and of sessions.
fn hits_to_tell(
    alloc: Global,
    rules: &[RuleLine],
    counts: &HitCounts,
    sessions: SessionCounts,
) -> Result<Vec<Hit>, AllocError>
    ensures { IfOk result (λ hits. (deciding : List (Option RuleName)) (verdicts : List Verdict) → Count counts.now.rules.items deciding
        → CountReasons verdicts counts.now.reasons
        → hits.items ≡ rule_hits deciding rules.now ++ (reason_hits verdicts ++ session_hits sessions)) }
{
    let mut hits = Vec::new(alloc);
    push_rule_hits_to_tell(&mut hits, &counts.rules, rules)?;
    push_reason_hits_to_tell(&mut hits, &counts.reasons)?;
    push_session_hits_to_tell(&mut hits, sessions)?;
    Ok(hits)
}

/// What is told of the hits of packets that were counted, under a policy that this text says: for each of its rules its
/// interface, direction and number, its line, how many packets it decided and its text; for each verdict that is no rule's how many
/// packets have it; and how many sessions were entered, how many packets they let through, and how many have expired: these
/// counts. An `Err` says that memory ran out.
pub fn counted_hits_text(
    alloc: Global,
    view: TextOrJson,
    text: &[u8],
    counts: &HitCounts,
    sessions: SessionCounts,
) -> Result<Vec<u8>, AllocError>
    ensures { IfOk result (λ told. (run : RunFacts) (times : session.Timeouts) (latest : ℕ) (stored : StoredFacts) → run.text ≡ text.now
        → IsPolicyText run.text run.policy → HaveCounted run.policy run.packets run.verdicts counts.now
        → sessions ≡ sessions_by times latest counts.now stored → IsHits view times latest run stored told.items) }
{
    let rules = numbered_rules(alloc, text)?;
    let hits = hits_to_tell(alloc, &rules, counts, sessions)?;
    let texts = texts_of(alloc, text)?;
    let told = tell_hits(alloc, view, &texts, &hits)?;
    Ok(told)
}

/// What is told of the hits of a run, as `counted_hits_text` says at the latest second of its packets. `stored` has the sessions that the tables hold after it. An
/// `Err` says that memory ran out.
pub fn hits_text(
    alloc: Global,
    view: TextOrJson,
    times: Timeouts,
    run: Run<'_>,
    stored: &StoredPairs,
) -> Result<Vec<u8>, AllocError>
    ensures { IfOk result (λ told. IsPolicyText run.entry.text.now (policy_facts run.entry.policy.now)
        → IsHits view times (Hits.latest_second (remaining run.entry.packets)) (run_facts run.entry) (stored_facts stored.now) told.items) }
{
    let mut counts = HitCounts::new(alloc);
    counts.count(run.policy, run.packets, run.verdicts)?;
    let latest = latest_second(0, run.packets);
    let sessions = count_sessions(times, latest, &counts, stored);
    counted_hits_text(alloc, view, run.text, &counts, sessions)
}
