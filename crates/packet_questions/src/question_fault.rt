//! Why packets in words aren't answered, and the status with which the program ends then.
ghost use Rattle.std.specs.Prelude.{◌≡◌};
ghost use Rattle.packet_questions.specs.Statuses.{status_of};

use crate::question_form::Form;
use racl_io::Fault;
use thiserror::Error;

/// Why packets in words get no verdicts. Packets are counted from 1.
#[derive(Clone, Copy, Debug, PartialEq, Eq, Error)]
pub enum QuestionFault {
    /// These words write no packet.
    #[error("packet {0} is wrong: {1}")]
    Wrong(u64, Form),
    /// It is to go out at an interface whose own address isn't known.
    #[error("packet {0} can't go out: interface {1} has no mac line")]
    NoWayOut(u64, u8),
    /// The policy is wrong, memory ran out, or the writer failed.
    #[error("{0}")]
    Run(Fault),
}

/// The status with which the program ends after this fault.
pub fn answer_status(fault: &QuestionFault) -> u8
    ensures { result ≡ status_of fault.now }
{
    match fault {
        QuestionFault::Wrong(_, _) | QuestionFault::NoWayOut(_, _) => 2,
        QuestionFault::Run(Fault::Memory | Fault::Read | Fault::Write) => 4,
        QuestionFault::Run(_) => 1,
    }
}
