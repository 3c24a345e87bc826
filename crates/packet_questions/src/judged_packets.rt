//! The verdicts on packets that are written in words.
ghost use Rattle.std.specs.Prelude.{◌≡◌, ◌≤◌, ◌⊎◌, IfErr, IfOk, length, map};
ghost use Rattle.packet_view.specs.Captures.{packet_facts};
ghost use Rattle.acl_policy.specs.Policies.{IsPolicyFault, IsPolicyText, policy_facts};
ghost use Rattle.acl_policy.specs.declared.policy.PolicyFault.{PolicyFault};
ghost use Rattle.flow_filter.specs.OneThread.{AreVerdicts, layout_of};
ghost use Rattle.flow_dealing.specs.WorkerRecords.{HavePages};
ghost use Rattle.racl_io.specs.Faults.{policy_fault};
ghost use Rattle.racl_io.specs.declared.fault.Fault.{Fault};
ghost use Rattle.packet_questions.specs.Asks.{texts};
ghost use Rattle.packet_questions.specs.Answers.{AreDefaultTimes, AreVerdictsOnAsked, IsTextFault, asked_facts, words_of_each};

use crate::asked_packets::{AskedPacket, asked_in, packets_of};
use crate::question_fault::QuestionFault;
use acl_policy::read_policy;
use bihash_words::{Shape, ShapeV4, ShapeV6, flow_shapes_are_sound};
use flow_filter::Filter;
use flow_workers::{Dealing, Gate, run_workers};
use packet_view::{Packet, Packets};
use racl_io::Fault;
use session_state::{Timeouts, Verdict};
use std::alloc::Global;
use std::sync::Wait;
use std::thread::Threads;

/// Packets that are asked about, and the verdicts on them.
#[derive(Drop)]
pub struct Judged {
    pub asked: Vec<AskedPacket>,
    pub verdicts: Vec<Verdict>,
}

/// Nothing waits before or after a packet is judged.
struct OpenGate;

impl Gate for OpenGate {
    fn before(&self, _worker: usize, _packet: usize) {}

    fn after(&self, _worker: usize, _packet: usize) {}
}

// The verdicts on packets by one worker over new tables.
fn verdicts_on<'a, T: Threads + Wait + Sync>(
    rt: &T,
    alloc: Global,
    filter: &'a Filter,
    packets: &'a [Packet<'a>],
) -> Result<Vec<Verdict>, Fault>
    ensures ok { IfOk result (λ v. HavePages v.items → AreVerdicts (layout_of ⟦<ShapeV4 as Shape>⟧ ⟦<ShapeV6 as Shape>⟧)
        filter.now.times (policy_facts filter.now.policy) (map packet_facts packets.now) v.items) }
    ensures few { IfOk result (λ v. length packets.now ≤ 64 → HavePages v.items) }
    ensures each { IfOk result (λ v. length v.items ≡ length packets.now) }
    ensures fault { IfErr result (λ fault. fault ≡ Fault.Memory) }
{
    flow_shapes_are_sound();
    let packets = Packets::Slice(packets);
    let dealing = Dealing::Bucket;
    match run_workers::<ShapeV4, ShapeV6, T, OpenGate>(
        rt, alloc, filter, packets, 1, &OpenGate, dealing,
    ) {
        Ok(verdicts) => Ok(verdicts),
        Err(_) => Err(Fault::Memory),
    }
}

/// The filter of a policy with this text.
pub fn filter_of(alloc: Global, text: &[u8]) -> Result<Filter, Fault>
    ensures ok { IfOk result (λ filter. IsPolicyText text.now (policy_facts filter.policy) × AreDefaultTimes filter.times) }
    ensures fault { IfErr result (λ fault. (fault ≡ Fault.Memory) ⊎ ((cause : PolicyFault) × IsPolicyFault text.now cause × (fault ≡ policy_fault cause))) }
{
    match read_policy(alloc, text) {
        Ok(policy) => Ok(Filter {
            policy,
            times: Timeouts::of_a_run(),
        }),
        Err(cause) => Err(Fault::from(cause)),
    }
}

/// Judges the packets that texts write, one after the other over the same tables.
pub fn judged_in<T: Threads + Wait + Sync>(
    rt: &T,
    alloc: Global,
    filter: &Filter,
    said: &[&str],
) -> Result<Judged, QuestionFault>
    ensures ok { IfOk result (λ judged. AreVerdictsOnAsked (layout_of ⟦<ShapeV4 as Shape>⟧ ⟦<ShapeV6 as Shape>⟧) filter.now.times
        (policy_facts filter.now.policy) (words_of_each (texts said.now)) (map asked_facts judged.asked.items) judged.verdicts.items) }
    ensures each { IfOk result (λ judged. length judged.verdicts.items ≡ length judged.asked.items) }
    ensures fault { IfErr result (IsTextFault (policy_facts filter.now.policy) (words_of_each (texts said.now))) }
{
    let asked = match asked_in(alloc, filter, said) {
        Ok(asked) => asked,
        Err(fault) => return Err(fault),
    };
    let Ok(packets) = packets_of(alloc, &asked) else {
        return Err(QuestionFault::Run(Fault::Memory));
    };
    let outcome = verdicts_on(rt, alloc, filter, &packets);
    drop(packets);
    match outcome {
        Ok(verdicts) => Ok(Judged { asked, verdicts }),
        Err(fault) => Err(QuestionFault::Run(fault)),
    }
}
