//! What C is told: one number for each answer, with all that the answer carries.
ghost use Rattle.std.specs.Prelude.{◌≡◌};
ghost use Rattle.racl_c.specs.Answers;
ghost use Rattle.racl_c.specs.Answers.{answer_of, end_number, ended_number, fault_told, split_number, take_number, way_number};

use acl_policy::PolicyFault;
use bihash_table::{Contended, SplitFault};
use bihash_words::Reply;
use flow_judge::{EndFault, Judged, TakeFault};
use packet_view::Direction;
use session_state::Verdict;

/// Of a call that makes or changes a judge: it was done.
pub const DONE: u32 = 0;

/// Memory was refused.
pub const MEMORY: u32 = 1;

/// The policy's bytes aren't UTF-8.
pub const NOT_UTF8: u32 = 2;

/// A line of the policy is wrong.
pub const BAD_LINE: u32 = 3;

/// A line of the policy is one rule too many.
pub const TOO_MANY: u32 = 4;

/// What a judge was to be made with isn't right.
pub const BAD_OPTIONS: u32 = 5;

/// As many judges were made as may be over the same tables.
pub const NUMBERS: u32 = 6;

/// Another judge stood in the way.
pub const CONTENDED: u32 = 7;

/// Another judge over the tables was not joined.
pub const STRANGERS: u32 = 8;

/// A session that had ended went.
pub const ENDED: u32 = 9;

/// A live session lets it through.
pub const SESSION: u32 = 16;

/// A reflecting rule lets it through, and entered a session.
pub const REFLECT: u32 = 17;

/// A rule lets it through.
pub const PERMIT: u32 = 18;

/// A rule drops it.
pub const DENY: u32 = 19;

/// No rule matches, so it is dropped.
pub const BY_DEFAULT: u32 = 20;

/// The session's bucket takes no more writes.
pub const WORN: u32 = 21;

/// The session's bucket has no place left.
pub const FULL: u32 = 22;

/// The session table has no pages left.
pub const NO_PAGES: u32 = 23;

/// The frame carries no IP packet, and passes.
pub const NOT_IP: u32 = 24;

/// The frame breaks the form of its headers.
pub const MALFORMED: u32 = 25;

/// The packet ends within its transport header.
pub const SHORT: u32 = 26;

/// The answer on a frame.
#[repr(C)]
#[derive(Clone, Copy, Debug, PartialEq, Eq)]
pub struct Answer {
    pub kind: u32,
    pub rule: u32,
    pub passes: u32,
    pub direction: u32,
}

/// What became of a judge that was to be made or changed.
#[repr(C)]
#[derive(Clone, Copy, Debug, PartialEq, Eq)]
pub struct Made {
    pub kind: u32,
    pub line: u64,
}

// The number of a verdict, with that of its rule, or 0.
fn kind_and_rule(verdict: Verdict) -> (u32, u32)
    ensures { result ≡ Answers.kind_and_rule verdict }
{
    match verdict {
        Verdict::Session => (SESSION, 0),
        Verdict::Reflect(rule) => (REFLECT, u32::from(rule)),
        Verdict::Permit(rule) => (PERMIT, u32::from(rule)),
        Verdict::Deny(rule) => (DENY, u32::from(rule)),
        Verdict::ByDefault => (BY_DEFAULT, 0),
        Verdict::Worn => (WORN, 0),
        Verdict::Full => (FULL, 0),
        Verdict::NoPages => (NO_PAGES, 0),
        Verdict::NotIp => (NOT_IP, 0),
        Verdict::Malformed => (MALFORMED, 0),
        Verdict::Short => (SHORT, 0),
    }
}

// The number of a way, or 0.
fn direction_number(direction: Option<Direction>) -> u32
    ensures { result ≡ way_number direction }
{
    match direction {
        None => 0,
        Some(Direction::Inbound) => 1,
        Some(Direction::Outbound) => 2,
    }
}

/// What C is told of a frame: the number of the verdict, its rule, whether the frame passes, and which way it goes.
#[inline(always)]
pub fn judged_answer(judged: Result<Judged, Contended>) -> Answer
    ensures { result ≡ answer_of judged }
{
    match judged {
        Ok(judged) => {
            let (kind, rule) = kind_and_rule(judged.verdict);
            Answer {
                kind,
                rule,
                passes: u32::from(judged.verdict.passes()),
                direction: direction_number(judged.direction),
            }
        }
        Err(Contended) => Answer {
            kind: CONTENDED,
            rule: 0,
            passes: 0,
            direction: 0,
        },
    }
}

/// The number for a look at a bucket for a session that has ended.
pub fn ended_answer(found: Result<Option<Reply>, Contended>) -> u32
    ensures { result ≡ ended_number found }
{
    match found {
        Ok(None) => DONE,
        Ok(Some(Reply::Changed(_))) => ENDED,
        Ok(Some(_)) => WORN,
        Err(Contended) => CONTENDED,
    }
}

/// What C is told where it was done.
pub fn was_done() -> Made
    ensures { result ≡ record { kind = 0; line = 0 } }
{
    Made {
        kind: DONE,
        line: 0,
    }
}

/// What C is told of options that aren't right.
pub fn options_refused() -> Made
    ensures { result ≡ record { kind = 5; line = 0 } }
{
    Made {
        kind: BAD_OPTIONS,
        line: 0,
    }
}

/// What C is told of a policy's fault: its number, and its line or 0.
pub fn fault_answer(fault: PolicyFault) -> Made
    ensures { result ≡ fault_told fault }
{
    match fault {
        PolicyFault::Memory => Made {
            kind: MEMORY,
            line: 0,
        },
        PolicyFault::NotUtf8 => Made {
            kind: NOT_UTF8,
            line: 0,
        },
        PolicyFault::BadLine(line) => Made {
            kind: BAD_LINE,
            line,
        },
        PolicyFault::TooMany(line) => Made {
            kind: TOO_MANY,
            line,
        },
    }
}

/// The number for a split that was refused.
pub fn split_refusal(fault: SplitFault) -> u32
    ensures { result ≡ split_number fault }
{
    match fault {
        SplitFault::Memory => MEMORY,
        SplitFault::Numbers => NUMBERS,
        SplitFault::Contended => CONTENDED,
    }
}

/// The number for a table that was not renewed or closed.
pub fn end_refusal(fault: EndFault) -> u32
    ensures { result ≡ end_number fault }
{
    match fault {
        EndFault::Memory => MEMORY,
        EndFault::Strangers => STRANGERS,
        EndFault::Contended => CONTENDED,
    }
}

/// The number for a policy that was not taken.
pub fn take_refusal(fault: TakeFault) -> u32
    ensures { result ≡ take_number fault }
{
    match fault {
        TakeFault::Memory => MEMORY,
        TakeFault::Strangers => STRANGERS,
    }
}
