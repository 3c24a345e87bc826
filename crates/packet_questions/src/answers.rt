//! The verdicts on packets that are written in words, told as a report.
ghost use Rattle.std.specs.Prelude.{◌≡◌, ◌≢◌, ◌+◌, ◌-◌, ◌<◌, ◌^◌, ◌↔◌, Err, IfErr, IfOk, length, true};
ghost use Rattle.packet_questions.specs.Asks.{texts};
ghost use Rattle.packet_view.specs.CheckedCaptures.{remaining};
ghost use Rattle.acl_policy.specs.Policies.{IsPolicyText, policy_facts};
ghost use Rattle.flow_filter.specs.OneThread.{layout_of};
ghost use Rattle.session_state.specs.declared.shown_verdicts.Shown.TheVariants.{Every};
ghost use Rattle.racl_io.specs.Reports.{totals_of};
ghost use Rattle.racl_io.specs.ShownReports.{report_shown};
ghost use Rattle.racl_io.specs.Tellings.{report_in};
ghost use Rattle.racl_io.specs.declared.fault.Fault.{Fault};
ghost use Rattle.packet_questions.specs.Answers.{AreAnswers, HasAnswered, IsAnswerFault, answered_of, told_facts, words_of_each};
ghost use Rattle.packet_questions.specs.declared.question_fault.QuestionFault.TheVariants as told;

use crate::asked_packets::packets_of;
use crate::asked_question::Ask;
use crate::judged_packets::{Judged, filter_of, judged_in};
use crate::question_fault::QuestionFault;
use acl_policy::Policy;
use bihash_words::{Shape, ShapeV4, ShapeV6};
use packet_view::Packets;
use racl_io::{Captured, Device, Fault, ReportLines, Sink, Teller, Totals, totals_on, write_all};
use racl_views::ExplainedLines;
use session_state::{Shown, Verdict};
use std::alloc::Global;
use std::sync::Wait;
use std::thread::Threads;

/// A report on packets that are asked about, before any of it is written, and the totals in it.
#[derive(Drop)]
struct HeldAnswers {
    text: Vec<u8>,
    totals: Totals,
}

// What these lines tell of packets, as those of one capture whose interface isn't named.
fn told_by<L: Teller + Drop>(
    alloc: Global,
    lines: L,
    packets: Packets<'_>,
    verdicts: &[Verdict],
) -> Result<HeldAnswers, Fault>
    requires { length verdicts.now ≡ length (remaining packets) }
    ensures told { IfOk result (λ told. told.text.items ≡ report_in (L.wording lines) (remaining packets.entry) verdicts.now (answered_of verdicts.now)) }
    ensures totals { IfOk result (λ told. told.totals ≡ totals_of verdicts.now (answered_of verdicts.now)) }
    ensures fault { IfErr result (λ fault. fault ≡ Fault.Memory) }
{
    let mut lines = lines;
    let mut held = Device::new(Vec::new(alloc));
    let captures = [Captured {
        named: None,
        packets: verdicts.len(),
        truncated: false,
    }];
    let Ok(passed) = lines.tell(&mut held, 0, packets, verdicts) else {
        return Err(Fault::Memory);
    };
    let totals = totals_on(passed, verdicts, &captures);
    match lines.tell_end(&mut held, &captures, &totals) {
        Ok(()) => {
            let Device { inner, .. } = held;
            Ok(HeldAnswers {
                text: inner,
                totals,
            })
        }
        Err(_) => Err(Fault::Memory),
    }
}

// The report in explained lines on packets with these verdicts by a policy with this text.
fn explained_on(
    alloc: Global,
    policy: &Policy,
    text: &[u8],
    packets: Packets<'_>,
    verdicts: &[Verdict],
) -> Result<HeldAnswers, Fault>
    requires says { IsPolicyText text.now (policy_facts policy.now) }
    requires each { length verdicts.now ≡ length (remaining packets) }
    ensures told { IfOk result (λ told. AreAnswers true (told_facts (policy_facts policy.now) text.now (remaining packets.entry) verdicts.now) told.text.items) }
    ensures totals { IfOk result (λ told. told.totals ≡ totals_of verdicts.now (answered_of verdicts.now)) }
    ensures fault { IfErr result (λ fault. fault ≡ Fault.Memory) }
{
    let Ok(lines) = ExplainedLines::new(alloc, Shown::Every, false, policy, text) else {
        return Err(Fault::Memory);
    };
    match told_by(alloc, lines, packets, verdicts) {
        Ok(told) => Ok(told),
        Err(fault) => Err(fault),
    }
}

// The report in plain lines on packets with these verdicts.
fn plain_on(alloc: Global, packets: Packets<'_>, verdicts: &[Verdict]) -> Result<HeldAnswers, Fault>
    requires { length verdicts.now ≡ length (remaining packets) }
    ensures told { IfOk result (λ told. told.text.items ≡ report_shown Every verdicts.now (answered_of verdicts.now)) }
    ensures totals { IfOk result (λ told. told.totals ≡ totals_of verdicts.now (answered_of verdicts.now)) }
    ensures fault { IfErr result (λ fault. fault ≡ Fault.Memory) }
{
    let Ok(lines) = ReportLines::new(alloc, Shown::Every, false) else {
        return Err(Fault::Memory);
    };
    match told_by(alloc, lines, packets, verdicts) {
        Ok(told) => Ok(told),
        Err(fault) => Err(fault),
    }
}

// The report on packets with these verdicts by a policy with this text, in explained lines or in plain ones.
fn answers_on(
    alloc: Global,
    policy: &Policy,
    text: &[u8],
    explained: bool,
    packets: Packets<'_>,
    verdicts: &[Verdict],
) -> Result<HeldAnswers, Fault>
    requires says { IsPolicyText text.now (policy_facts policy.now) }
    requires each { length verdicts.now ≡ length (remaining packets) }
    ensures told { IfOk result (λ told. AreAnswers explained (told_facts (policy_facts policy.now) text.now (remaining packets.entry) verdicts.now) told.text.items) }
    ensures totals { IfOk result (λ told. told.totals ≡ totals_of verdicts.now (answered_of verdicts.now)) }
    ensures fault { IfErr result (λ fault. fault ≡ Fault.Memory) }
{
    match explained {
        true => explained_on(alloc, policy, text, packets, verdicts),
        false => plain_on(alloc, packets, verdicts),
    }
}

/// Judges packets that are written in words by a policy, one after the other over the same tables, and writes the verdicts:
/// a line for each, explained where that is asked, and the totals. Nothing is written before all were judged.
pub fn answer_questions<W: Sink, T: Threads + Wait + Sync>(
    rt: &T,
    alloc: Global,
    ask: &Ask<'_>,
    text: &[u8],
    writer: &mut W,
) -> Result<Totals, QuestionFault>
    requires { W.failures writer.old < 2 ^ 64 - 1 }
    ensures ok { IfOk result (HasAnswered (layout_of ⟦<ShapeV4 as Shape>⟧ ⟦<ShapeV6 as Shape>⟧) ask.now.explained
        text.now (words_of_each (texts ask.now.packets.now)) (W.bytes writer.old) (W.bytes writer.new)) }
    ensures fault { IfErr result (IsAnswerFault text.now (words_of_each (texts ask.now.packets.now))) }
    ensures write { (result ≡ Err (told.Run Fault.Write)) ↔ (W.failures writer.new ≡ W.failures writer.old + 1) }
    ensures unwritten { IfErr result (λ fault. fault ≢ told.Run Fault.Write → writer.new ≡ writer.old) }
{
    let filter = match filter_of(alloc, text) {
        Ok(filter) => filter,
        Err(fault) => return Err(QuestionFault::Run(fault)),
    };
    let Judged { asked, verdicts } = match judged_in(rt, alloc, &filter, ask.packets) {
        Ok(judged) => judged,
        Err(fault) => return Err(fault),
    };
    let Ok(packets) = packets_of(alloc, &asked) else {
        return Err(QuestionFault::Run(Fault::Memory));
    };
    let listed = Packets::Slice(&packets);
    let explained = ask.explained;
    let told = match answers_on(alloc, &filter.policy, text, explained, listed, &verdicts) {
        Ok(told) => told,
        Err(fault) => return Err(QuestionFault::Run(fault)),
    };
    let HeldAnswers { text, totals } = told;
    match write_all(writer, &text) {
        Ok(()) => Ok(totals),
        Err(fault) => Err(QuestionFault::Run(fault)),
    }
}
