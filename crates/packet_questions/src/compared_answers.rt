//! The verdicts on packets that are written in words, compared with expected ones.
ghost use Rattle.std.specs.Prelude.{◌≡◌, ◌≢◌, ◌+◌, ◌-◌, ◌<◌, ◌^◌, ◌↔◌, Err, IfErr, IfOk};
ghost use Rattle.flow_filter.specs.OneThread.{layout_of};
ghost use Rattle.racl_io.specs.declared.fault.Fault.{Fault};
ghost use Rattle.packet_questions.specs.Asks.{texts};
ghost use Rattle.packet_questions.specs.Answers.{HasCompared, IsAnswerFault, words_of_each};
ghost use Rattle.packet_questions.specs.declared.question_fault.QuestionFault.TheVariants as told;

use crate::asked_question::Ask;
use crate::judged_packets::{Judged, filter_of, judged_in};
use crate::question_fault::QuestionFault;
use bihash_words::{Shape, ShapeV4, ShapeV6};
use compared_verdicts::{Expectation, write_compared};
use racl_io::Sink;
use std::alloc::Global;
use std::sync::Wait;
use std::thread::Threads;

/// Judges packets that are written in words by a policy, one after the other over the same tables, and writes what isn't as
/// expected of the verdicts, or that all is, which it answers. Nothing is written before all were judged.
pub fn compare_answers<W: Sink, T: Threads + Wait + Sync>(
    rt: &T,
    alloc: Global,
    ask: &Ask<'_>,
    expectations: &[Expectation],
    text: &[u8],
    writer: &mut W,
) -> Result<bool, QuestionFault>
    requires { W.failures writer.old < 2 ^ 64 - 1 }
    ensures ok { IfOk result (HasCompared (layout_of ⟦<ShapeV4 as Shape>⟧ ⟦<ShapeV6 as Shape>⟧) text.now (words_of_each (texts ask.now.packets.now))
        expectations.now (W.bytes writer.old) (W.bytes writer.new)) }
    ensures fault { IfErr result (IsAnswerFault text.now (words_of_each (texts ask.now.packets.now))) }
    ensures write { (result ≡ Err (told.Run Fault.Write)) ↔ (W.failures writer.new ≡ W.failures writer.old + 1) }
    ensures unwritten { IfErr result (λ fault. fault ≢ told.Run Fault.Write → writer.new ≡ writer.old) }
{
    let filter = match filter_of(alloc, text) {
        Ok(filter) => filter,
        Err(fault) => return Err(QuestionFault::Run(fault)),
    };
    let Judged { verdicts, .. } = match judged_in(rt, alloc, &filter, ask.packets) {
        Ok(judged) => judged,
        Err(fault) => return Err(fault),
    };
    match write_compared(alloc, writer, expectations, &verdicts) {
        Ok(met) => Ok(met),
        Err(fault) => Err(QuestionFault::Run(fault)),
    }
}
