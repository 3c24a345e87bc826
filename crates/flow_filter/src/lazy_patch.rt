//! What a packet does to its flow's session, where the rules are asked only if no session is live.
ghost use Rattle.std.specs.Prelude.{◌≡◌, ◌<◌, ℕ, Bool, Option};
ghost use Rattle.std.specs.Option.{ForSome};
ghost use Rattle.packet_view.specs.Tuples.{tuple_facts};
ghost use Rattle.acl_policy.specs.Matching.{IsRuling};
ghost use Rattle.acl_policy.specs.Rules.{most_rules};
ghost use Rattle.flow_filter.specs.Liveness.{IsForeseen};
ghost use Rattle.flow_filter.specs.Readings.{Ruling};
ghost use Rattle.flow_filter.specs.Filters.{section_in};
ghost use Rattle.flow_filter.specs.PacketFlows.{IsRulingOn};
ghost use Rattle.flow_filter.specs.Rulesets.{rules_in};

use crate::interface_filters::InterfaceFilter;
use crate::packet_flow::{PacketFlow, tuple_copy};
use crate::ruleset::Ruleset;
use crate::session_update::patch_of;
use crate::verdict_by_rules::{found_for_verdict, verdict_without_session};
use acl_policy::Action;
use bihash_words::{Change, Patch, Reply};
use packet_view::Tuple;
use session_state::{PacketPatch, Session, Verdict};
use std::cell::Cell;
use std::marker::{Brand, PhantomData};

/// What the rules say of one packet, as proofs know it before the rules are asked, and which stored values are live
/// sessions for it.
pub trait HasReading {
    ghost ruling: { Ruling };

    ghost is_live: { Option ℕ → Bool };
}

impl HasReading for Brand {
    ghost use Rattle.std.specs.Prelude.{None, false};

    ghost ruling = { None };

    ghost is_live = { λ _. false };
}

/// What that packet found when it was asked last, and whether it is a live session.
#[derive(Drop)]
struct LastFound<D: HasReading> {
    found: Option<u64>,
    is_live: bool,
    of: PhantomData<D>,
    ghost told: { is_live ≡ D.is_live found },
}

/// What the rules said of that packet.
#[derive(Drop)]
struct Decided<D: HasReading> {
    ruling: Option<(usize, Action)>,
    of: PhantomData<D>,
    ghost is: { ruling ≡ D.ruling },
    ghost few: { ForSome ruling (λ decided. decided.0 < most_rules) },
}

/// What decides a packet: its live session, and where it has none, what the rules say.
#[derive(Clone, Copy)]
pub enum Decider {
    Session(Session),
    Rules(Option<(usize, Action)>),
}

// A lazy patch asks its rules by this, where no session of the packet is live. Few packets of a busy flow come here,
// so it is kept out of their way, and what they are told by stays out of memory.
#[cold]
#[inline(never)]
fn ask_rules_lazily(rules: Ruleset<'_>, tuple: Tuple) -> Option<(usize, Action)>
    ensures only { (other : Ruling) → IsRuling (rules_in rules.entry) (tuple_facts tuple) other → other ≡ result }
    ensures decided { IsRuling (rules_in rules.entry) (tuple_facts tuple) result }
    ensures few { ForSome result (λ decided. decided.0 < most_rules) }
{
    rules.first_match(&tuple)
}

/// What a packet does to its flow's session. The rules are asked once at most, and not at all where a
/// session is live.
#[derive(Drop)]
pub struct LazyPatch<'a, D: HasReading> {
    filter: &'a InterfaceFilter<'a>,
    packet: PacketFlow<'a>,
    decided: Cell<Option<Decided<D>>>,
    seen: Cell<Option<LastFound<D>>>,
    ghost lives: { IsForeseen filter.now.times packet.moment D.is_live },
    ghost said: { (d : Ruling) → IsRulingOn (section_in filter.now) packet d → d ≡ D.ruling },
}

impl<'a, D: HasReading> LazyPatch<'a, D> {
    ghost use Rattle.std.specs.Prelude.{None};
    ghost use Rattle.session_state.specs.Decisions.{is_live_for, patch_facts};
    ghost use Rattle.flow_filter.specs.Deciders.{decider_of};
    ghost use Rattle.flow_filter.specs.PacketFlows.{update_by};
    ghost use Rattle.flow_filter.specs.Verdicts.{verdict_of};
    ghost use Rattle.flow_filter.specs.LazyPatches.{facts_of};
    ghost use Rattle.bihash_words.specs.Maps.{found_by};

    #[inline]
    pub fn new(filter: &'a InterfaceFilter<'a>, packet: PacketFlow<'a>) -> LazyPatch<'a, D>
        requires ruling { IsRulingOn (section_in filter.now) packet D.ruling }
        requires lives { IsForeseen filter.now.times packet.moment D.is_live }
        ensures { facts_of ⟦<D as HasReading>⟧ result ≡ (update_by filter.now.times packet.entry D.ruling).patch }
    {
        LazyPatch {
            filter,
            packet,
            decided: Cell::new(None),
            seen: Cell::new(None),
        }
    }

    #[inline(always)]
    fn ask(&self) -> Decided<D> {
        Decided {
            ruling: ask_rules_lazily(
                self.filter.rules_of(self.packet.direction),
                tuple_copy(self.packet.tuple),
            ),
            of: PhantomData,
        }
    }

    #[inline(always)]
    fn ruling(&self) -> Option<(usize, Action)>
        ensures is { result ≡ D.ruling }
        ensures few { ForSome result (λ decided. decided.0 < most_rules) }
    {
        let decided = match self.decided.replace(None) {
            Some(decided) => decided,
            None => self.ask(),
        };
        let ruling = decided.ruling;
        self.decided.set(Some(decided));
        ruling
    }

    /// Whether the rules were asked for the packet. No clause can name what a cell holds: tests look at it.
    pub fn has_asked(&self) -> bool {
        let decided = self.decided.replace(None);
        let has_asked = decided.is_some();
        self.decided.set(decided);
        has_asked
    }

    // What the packet does to a live session, which no rule is asked for.
    #[inline]
    fn unruled(&self) -> PacketPatch
        ensures { patch_facts result ≡ (update_by self.now.filter.now.times self.now.packet None).patch }
    {
        patch_of(&self.filter.times, &self.packet, None)
    }

    // The rules are asked here alone.
    #[inline(always)]
    fn decider(&self, found: Option<u64>) -> Decider
        ensures { result ≡ decider_of (facts_of ⟦<D as HasReading>⟧ self.now) found D.ruling }
    {
        if let Some(session) = self.unruled().live_session(found) {
            return Decider::Session(session);
        }
        Decider::Rules(self.ruling())
    }

    // Whether the value is a live session, which is known where the packet was asked with it last.
    #[inline(always)]
    fn is_live(&self, found: Option<u64>) -> bool
        ensures { result ≡ is_live_for (facts_of ⟦<D as HasReading>⟧ self.now) found }
    {
        if let Some(seen) = self.seen.replace(None) {
            if seen.found == found {
                return seen.is_live;
            }
        }
        self.unruled().live_session(found).is_some()
    }

    /// The verdict on the packet, by the reply to its update.
    #[inline(always)]
    pub fn verdict(&self, reply: Reply) -> Verdict
        ensures { result ≡ verdict_of (facts_of ⟦<D as HasReading>⟧ self.now) D.ruling (found_by reply) reply }
    {
        if self.is_live(found_for_verdict(reply)) {
            return Verdict::Session;
        }
        let ruling = self.ruling();
        let patch = patch_of(&self.filter.times, &self.packet, ruling);
        verdict_without_session(&patch, ruling, reply)
    }
}

impl<'a, D: HasReading> Patch for LazyPatch<'a, D> {
    ghost use Rattle.session_state.specs.Decisions.{decision_of};
    ghost use Rattle.flow_filter.specs.LazyPatches.{facts_of};

    ghost decision = { λ patch old. decision_of (facts_of ⟦<D as HasReading>⟧ patch) old };

    #[inline(always)]
    fn decide(&self, old: Option<u64>) -> Change {
        let decider = self.decider(old);
        self.seen.set(Some(LastFound {
            found: old,
            is_live: matches!(decider, Decider::Session(_)),
            of: PhantomData,
        }));
        match decider {
            Decider::Session(session) => self.unruled().touch(session),
            Decider::Rules(ruling) => {
                let patch = patch_of(&self.filter.times, &self.packet, ruling);
                patch.decide(old)
            }
        }
    }
}
