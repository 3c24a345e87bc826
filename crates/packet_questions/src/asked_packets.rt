//! The packets that texts ask about, one after the other, with their frames.
ghost use Rattle.std.specs.Prelude.{◌≡◌, IfErr, IfOk, map};
ghost use Rattle.packet_questions.specs.Asks.{texts};
ghost use Rattle.packet_view.specs.Captures.{packet_facts};
ghost use Rattle.acl_policy.specs.Policies.{policy_facts, section_of};
ghost use Rattle.acl_policy.specs.Words.{words_of};
ghost use Rattle.packet_questions.specs.Questions.{IsQuestion};
ghost use Rattle.packet_questions.specs.Answers.{AreAsked, IsFaultAt, IsSeenAsked, IsTextFault, asked_facts, packet_asked, words_of_each};

use crate::frame_bytes::question_frame;
use crate::question_fault::QuestionFault;
use crate::question_form::form_of;
use crate::question_words::{Question, question_of};
use flow_filter::Filter;
use packet_view::{Mac, Packet};
use racl_io::Fault;
use std::alloc::{AllocError, Global};

/// A packet that is asked about, and the frame that is written for it.
#[derive(Drop)]
pub struct AskedPacket {
    pub question: Question,
    pub frame: Vec<u8>,
}

// The own address of an interface.
fn own_of(filter: &Filter, interface: u8) -> Option<Mac>
    ensures { result ≡ (section_of interface (policy_facts filter.now.policy)).own }
{
    filter.ready(interface).own
}

// The packet that the text with this number asks about, with its frame, where the one before was seen in this second.
fn asked_of(
    alloc: Global,
    filter: &Filter,
    before: u32,
    number: u64,
    text: &[u8],
) -> Result<AskedPacket, QuestionFault>
    ensures ok { IfOk result (λ a. IsQuestion before (words_of text.now) (asked_facts a).question
        × IsSeenAsked (policy_facts filter.now.policy) (asked_facts a)) }
    ensures fault { IfErr result (IsFaultAt (policy_facts filter.now.policy) before number (words_of text.now)) }
{
    let Some(question) = question_of(before, text) else {
        return Err(QuestionFault::Wrong(number, form_of(text)));
    };
    let own = own_of(filter, question.tuple.interface);
    match question_frame(alloc, &question, own) {
        Ok(Some(frame)) => Ok(AskedPacket { question, frame }),
        Ok(None) => Err(QuestionFault::NoWayOut(number, question.tuple.interface)),
        Err(_) => Err(QuestionFault::Run(Fault::Memory)),
    }
}

/// The packets that the texts ask about, with their frames at the interfaces of this filter.
pub fn asked_in(
    alloc: Global,
    filter: &Filter,
    said: &[&str],
) -> Result<Vec<AskedPacket>, QuestionFault>
    ensures ok { IfOk result (λ asked. AreAsked (policy_facts filter.now.policy) (words_of_each (texts said.now)) (map asked_facts asked.items)) }
    ensures fault { IfErr result (IsTextFault (policy_facts filter.now.policy) (words_of_each (texts said.now))) }
{
    let mut asked = Vec::new(alloc);
    let mut before = 0;
    let mut rest = said;
    'texts: while !rest.is_empty() {
        let number = asked.len() as u64 + 1;
        let one = match asked_of(alloc, filter, before, number, rest[0].as_bytes()) {
            Ok(one) => one,
            Err(fault) => return Err(fault),
        };
        before = one.question.moment;
        if asked.push(one).is_err() {
            return Err(QuestionFault::Run(Fault::Memory));
        }
        rest = &rest[1..];
    }
    Ok(asked)
}

/// The packets that are asked about, as a filter takes them.
pub fn packets_of(alloc: Global, asked: &[AskedPacket]) -> Result<Vec<Packet<'_>>, AllocError>
    ensures { IfOk result (λ packets. map packet_facts packets.items ≡ map packet_asked (map asked_facts asked.now)) }
{
    let mut packets = Vec::new(alloc);
    for one in asked {
        packets.push(Packet {
            interface: one.question.tuple.interface,
            moment: one.question.moment,
            micros: 0,
            frame: &one.frame,
        })?;
    }
    Ok(packets)
}
