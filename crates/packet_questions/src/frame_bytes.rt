//! The frame of a packet in question.
ghost use Rattle.std.specs.Prelude.{◌≡◌, ◌≢◌, ◌↔◌, IfOk, IfSome, None, Ok, IsTrue};
ghost use Rattle.packet_view.specs.Frames.{IsFrame, frame_facts};
ghost use Rattle.packet_view.specs.Tuples.{tuple_facts};
ghost use Rattle.packet_questions.specs.Frames.{frame_bytes, seen_facts};
ghost use Rattle.packet_questions.specs.Questions.{question_facts};

use crate::frame_parts::{ethernet_source, packet_bytes};
use crate::question_words::Question;
use packet_view::{Frame, Mac, Tuple, view};
use std::alloc::{AllocError, Global};

// Whether two tuples say the same.
fn is_same_tuple(one: &Tuple, other: &Tuple) -> bool
    ensures { IsTrue result ↔ (tuple_facts one.now ≡ tuple_facts other.now) }
{
    one.interface == other.interface
        && one.family == other.family
        && one.source == other.source
        && one.dest == other.dest
        && one.proto == other.proto
        && one.fields == other.fields
}

// Whether a frame is seen as the packet that it is written for.
fn is_seen(frame: &Frame, question: &Question) -> bool
    ensures { IsTrue result ↔ (frame_facts frame.now ≡ seen_facts (question_facts question.now)) }
{
    match frame {
        Frame::Ip(direction, tuple) => {
            *direction == question.direction && is_same_tuple(tuple, &question.tuple)
        }
        _ => false,
    }
}

// The bytes of the frame that is written for a packet.
fn frame_of(alloc: Global, question: &Question, own: Option<Mac>) -> Result<Vec<u8>, AllocError>
    ensures { IfOk result (λ frame. frame.items ≡ frame_bytes own (question_facts question.now)) }
{
    let (kind, packet) = packet_bytes(alloc, &question.tuple)?;
    let mut frame = Vec::new(alloc);
    frame.extend_from_slice(&[0; 6])?;
    frame.extend_from_slice(&ethernet_source(question.direction, own))?;
    frame.extend_from_slice(&kind)?;
    frame.extend_from_slice(&packet)?;
    Ok(frame)
}

/// The frame that is written for a packet at an interface with this own address. `None`: there it is seen as another
/// packet, since none goes out where no own address is known.
pub fn question_frame(
    alloc: Global,
    question: &Question,
    own: Option<Mac>,
) -> Result<Option<Vec<u8>>, AllocError>
    ensures written { IfOk result (λ found. IfSome found (λ frame. frame.items ≡ frame_bytes own (question_facts question.now))) }
    ensures seen { IfOk result (λ found. IfSome found (λ frame. IsFrame frame.items
        (record { number = question.now.tuple.interface; own = own }) (seen_facts (question_facts question.now)))) }
    ensures unseen { result ≡ Ok None → IsFrame (frame_bytes own (question_facts question.now))
        (record { number = question.now.tuple.interface; own = own }) (seen_facts (question_facts question.now)) → ⊥ }
{
    let frame = frame_of(alloc, question, own)?;
    let seen = view(&frame, question.tuple.interface, own);
    if is_seen(&seen, question) {
        Ok(Some(frame))
    } else {
        Ok(None)
    }
}
