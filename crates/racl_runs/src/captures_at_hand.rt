//! Captures of which all bytes are at hand: the report on them, which is held until all of them were judged.
ghost use Rattle.std.specs.Prelude.{◌≡◌, ◌⊎◌, ◌-◌, ◌<◌, ◌≤◌, ◌^◌, [], IfErr, IfOk, List, Some};
ghost use Rattle.packet_view.specs.Captures.{PacketFacts};
ghost use Rattle.acl_policy.specs.Policies.{IsPolicyText, policy_facts};
ghost use Rattle.racl_io.specs.declared.fault.Fault.TheVariants.{Memory, TooLarge, Write};
ghost use Rattle.racl_io.specs.CapturePackets.{HavePacketsTold};
ghost use Rattle.racl_io.specs.Tellings.{AreNamedBy, name_where};
ghost use Rattle.racl_runs.specs.Reads.{HasReportedOn};
ghost use Rattle.racl_runs.specs.inner.ReportsAtHand.{HasToldAtHand};

use crate::asked_lines::AskedLines;
use crate::live_run::{LiveWay, ages_early, tell_end_behind, told_behind_live, workers_over};
use crate::run_plan::EXPECTED;
use crate::sized_tables_and_workers::create_sized;
use crate::stored_sessions::keeps_stored;
use filter_run::{CapturesAtHand, ReportedTurns, report_in_turn};
use flow_workers::Filter;
use racl_io::{CaptureBytes, Captured, Device, Fault, Sink, Teller, Totals};
use racl_options::Options;
use std::alloc::Global;
use std::sync::Wait;
use std::thread::Threads;
use std::time::Clock;

/// Captures of which all bytes are at hand, with a policy, its text, and what is told of each capture.
#[derive(Clone, Copy)]
pub struct AtHand<'a> {
    pub filter: &'a Filter,
    pub text: &'a [u8],
    pub captures: &'a [CaptureBytes],
    pub told: &'a [Captured],
    /// Whether each packet's line names its interface; else none does.
    pub names: bool,
}

/// A report, before any of it is written, and the totals in it.
#[derive(Drop)]
pub struct HeldReport {
    pub text: Vec<u8>,
    pub totals: Totals,
}

// Workers who go by this way judge the packets of captures in turn, and these are told, and what stands behind them.
fn tell_in_turn<L: Teller + Drop, W: Sink, T: Clock + Threads + Wait + Sync>(
    rt: &T,
    alloc: Global,
    way: LiveWay<'_, '_>,
    captures: CapturesAtHand<'_>,
    writer: &mut W,
    lines: L,
) -> Result<Totals, Fault>
    requires says { IsPolicyText way.text.now (policy_facts way.filter.now.policy.now) }
    requires times { way.filter.now.times ≡ way.options.now.times }
    requires right { (packets : List PacketFacts) × HavePacketsTold captures.captures.now captures.told.now packets }
    requires writer { W.failures writer.old < 2 ^ 64 - 1 }
    ensures told { IfOk result (λ totals. (packets : List PacketFacts) → HavePacketsTold captures.entry.captures.now captures.entry.told.now packets
        → HasToldAtHand way.entry.options.now way.entry.text.now (policy_facts way.entry.filter.now.policy.now) (L.wording lines) packets captures.entry.told.now (W.bytes writer.old) (W.bytes writer.new) totals) }
    ensures fault { IfErr result (λ fault. (fault ≡ Memory) ⊎ (fault ≡ Write) ⊎ (fault ≡ TooLarge)) }
{
    let ages = ages_early(way.options);
    let Ok((tables, callers)) = create_sized(alloc, way.options.tables, ages) else {
        return Err(Fault::Memory);
    };
    let Ok(judges) = workers_over(rt, alloc, way, &tables, callers) else {
        return Err(Fault::Memory);
    };
    let noted = keeps_stored(way.options);
    let mut teller = lines;
    let told = match report_in_turn(alloc, captures, noted, writer, &mut teller, judges) {
        Ok(told) => told,
        Err(fault) => return Err(fault),
    };
    let ReportedTurns {
        judges,
        totals,
        latest,
    } = told;
    let Ok((counts, callers)) = judges.end(alloc) else {
        return Err(Fault::Memory);
    };
    let Ok(behind) = told_behind_live(alloc, way, tables, &counts, callers, latest) else {
        return Err(Fault::Memory);
    };
    match tell_end_behind(writer, &mut teller, &[], &totals, &behind) {
        Ok(()) => Ok(totals),
        Err(fault) => Err(fault),
    }
}

// How many packets captures have of which this is told, but no more than rules are prepared for.
fn expected_in(told: &[Captured]) -> usize
    ensures { result ≤ 16777216 }
{
    let mut packets: usize = 0;
    'each: for captured in told {
        packets = packets.saturating_add(captured.packets);
    }
    packets.min(EXPECTED)
}

/// Workers judge the packets of captures, one after the other, and this is the report on them. Where it can't be made memory ran out.
pub fn report_at_hand<T: Clock + Threads + Wait + Sync>(
    rt: &T,
    alloc: Global,
    options: &Options,
    at_hand: AtHand<'_>,
) -> Result<HeldReport, Fault>
    requires says { IsPolicyText at_hand.text.now (policy_facts at_hand.filter.now.policy) }
    requires times { at_hand.filter.now.times ≡ options.now.times }
    requires right { (packets : List PacketFacts) × HavePacketsTold at_hand.captures.now at_hand.told.now packets }
    ensures ok { IfOk result (λ held. (packets : List PacketFacts) → HavePacketsTold at_hand.entry.captures.now at_hand.entry.told.now packets
        → AreNamedBy (name_where at_hand.entry.names) packets at_hand.entry.told.now
        → HasReportedOn options.now at_hand.entry.text.now (policy_facts at_hand.entry.filter.now.policy) packets at_hand.entry.told.now (Some []) (Some held.text.items) held.totals) }
    ensures fault { IfErr result (λ fault. fault ≡ Memory) }
{
    let expected = expected_in(at_hand.told);
    let Ok(prepared) = at_hand.filter.prepare(alloc, expected) else {
        return Err(Fault::Memory);
    };
    let Ok(ready) = at_hand.filter.ready_with(alloc, &prepared) else {
        return Err(Fault::Memory);
    };
    let way = LiveWay {
        options,
        text: at_hand.text,
        filter: &ready,
    };
    let Ok(lines) = AskedLines::new(alloc, way, at_hand.names) else {
        return Err(Fault::Memory);
    };
    let captures = CapturesAtHand {
        captures: at_hand.captures,
        told: at_hand.told,
    };
    let mut held = Device::new(Vec::new(alloc));
    match tell_in_turn(rt, alloc, way, captures, &mut held, lines) {
        Ok(totals) => {
            let Device { inner, .. } = held;
            Ok(HeldReport {
                text: inner,
                totals,
            })
        }
        Err(_) => Err(Fault::Memory),
    }
}
