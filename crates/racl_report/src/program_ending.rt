//! How the program ends: what it says on standard error, and its exit status.
ghost use Rattle.std.specs.Prelude.{◌≡◌, ◌≢◌, ◌≤◌, None, Some, length};
ghost use Rattle.clap.specs.Words.{kind_of};
ghost use Rattle.std.specs.IoError.{error_kind};
ghost use Rattle.racl_report.specs.Endings;
ghost use Rattle.racl_report.specs.Endings.{frames_by, frames_on, hint_on, remark_on, said_after, shortage_on};
ghost use Rattle.racl_report.specs.Statuses.{status_of};
ghost use Rattle.racl_io.specs.declared.fault.Fault.TheVariants.{Memory, Write};
ghost use Rattle.racl_options.specs.CommandLine.{IsRequest};

use crate::message_texts::{Ending, Frames, Hint, Message, Shortage};
use byteorder::{BigEndian, ByteOrder, LittleEndian};
use clap::error::ErrorKind;
use racl_io::{Fault, Other, Totals, is_capture, other_file};
use racl_options::{TableSize, words_status};
use std::io;
use std::io::ErrorKind as FailureKind;

/// The status with which the program ends: 0 done, 3 done but a capture was truncated, 1 a fault
/// of the input, 4 memory that ran out or a device that failed. Where verdicts are compared it is `status_of_expected` or
/// `status_of_changes` of `compared_verdicts`.
pub fn status(outcome: &Result<Totals, Fault>) -> u8
    ensures { result ≡ status_of outcome.now }
{
    match outcome {
        Ok(totals) => { if totals.truncated { 3 } else { 0 } }
        Err(Fault::Memory | Fault::Read | Fault::Write) => 4,
        Err(_) => 1,
    }
}

/// The message and the status at the end of a run: after a report nothing is said, and a fault is told.
pub fn ending(outcome: &Result<Totals, Fault>) -> Ending
    ensures status { result.status ≡ status_of outcome.now }
    ensures said { result.message ≡ said_after outcome.now }
{
    let message = match outcome {
        Ok(_) => None,
        Err(fault) => Some(Message::Fault(*fault)),
    };
    Ending {
        message,
        status: status(outcome),
    }
}

/// What a program's ending tells of a capture file that begins with these bytes, behind the message on the fault.
pub fn remark(outcome: &Result<Totals, Fault>, front: &[u8]) -> Option<Other>
    ensures { result ≡ remark_on outcome.now front.now }
{
    match outcome {
        Err(Fault::Magic | Fault::LinkType) => other_file(front),
        _ => None,
    }
}

// What the frames are of a capture whose header has this link type, which isn't that of Ethernet.
fn frames_of(link: u16) -> Frames
    ensures { result ≡ frames_by link }
{
    match link {
        101 | 12 | 14 | 228 | 229 => Frames::RawIp(link),
        105 | 119 | 127 | 163 | 192 => Frames::WiFi(link),
        0 | 108 => Frames::Loopback(link),
        9 | 50 | 104 | 107 | 204 => Frames::Serial(link),
        117 | 239 => Frames::Logged(link),
        _ => Frames::Another(link),
    }
}

// The link type of a header.
fn link_in(front: &[u8]) -> u16
    requires { 24 ≤ length front.now }
    ensures { result ≡ Endings.link_in front.now }
{
    if front[0] == 0xa1 {
        (BigEndian::read_u32(&front[20..]) % 65_536) as u16
    } else {
        (LittleEndian::read_u32(&front[20..]) % 65_536) as u16
    }
}

/// What a program's ending tells of a capture's frames, which begins with these bytes, where they aren't those of Ethernet.
pub fn frames(outcome: &Result<Totals, Fault>, front: &[u8]) -> Option<Frames>
    ensures { result ≡ frames_on outcome.now front.now }
{
    match outcome {
        Err(Fault::LinkType) => {
            if front.len() < 24 {
                return None;
            }
            Some(frames_of(link_in(front)))
        }
        _ => None,
    }
}

/// What is told behind the message on a fault with a likely cause, where the policy's file begins with these bytes:
/// a record that is too long, and isn't the first, may be another capture's header; a policy not in UTF-8, a capture.
pub fn hint(outcome: &Result<Totals, Fault>, policy: &[u8]) -> Option<Hint>
    ensures { result ≡ hint_on outcome.now policy.now }
{
    match outcome {
        Err(Fault::LongRecord(number)) if *number > 1 => Some(Hint::TwoCaptures),
        Err(Fault::NotUtf8) if is_capture(policy) => Some(Hint::Swapped),
        _ => None,
    }
}

/// What the program tells behind a report where packets found no pages, by whether sessions that have ended were removed,
/// and the size of the tables.
pub fn shortage(outcome: &Result<Totals, Fault>, ages: bool, tables: TableSize) -> Option<Shortage>
    ensures { result ≡ shortage_on ages tables outcome.now }
{
    let Ok(totals) = outcome else {
        return None;
    };
    let count = totals.without_pages;
    if count == 0 {
        return None;
    }
    Some(match (ages, tables) {
        (false, TableSize::Standard) => Shortage::Standing(count),
        (true, TableSize::Standard) => Shortage::Ageing(count),
        (false, TableSize::Large) => Shortage::Large(count),
        (true, TableSize::Large) => Shortage::AgeingLarge(count),
    })
}

/// The message and the status after words that `options` refuses. Without a message `clap`'s own text is printed.
pub fn words_ending(error: &clap::Error) -> Ending
    ensures request { IsRequest (kind_of error.now) → result ≡ record { message = None; status = 0 } }
    ensures memory { kind_of error.now ≡ ErrorKind.OutOfMemory
        → result ≡ record { message = Some (Message.Fault Memory); status = 4 } }
    ensures mistake { (IsRequest (kind_of error.now) → ⊥) → kind_of error.now ≢ ErrorKind.OutOfMemory
        → result ≡ record { message = None; status = 2 } }
{
    let message = match error.kind() {
        ErrorKind::OutOfMemory => Some(Message::Fault(Fault::Memory)),
        _ => None,
    };
    Ending {
        message,
        status: words_status(error),
    }
}

/// The message and the status where the words can't be had, or a text can't be printed.
pub fn failure_ending(error: &io::Error) -> Ending
    ensures word { error_kind error.now ≡ FailureKind.InvalidData
        → result ≡ record { message = Some Message.WordNotUtf8; status = 2 } }
    ensures memory { error_kind error.now ≡ FailureKind.OutOfMemory
        → result ≡ record { message = Some (Message.Fault Memory); status = 4 } }
    ensures device { error_kind error.now ≢ FailureKind.InvalidData → error_kind error.now ≢ FailureKind.OutOfMemory
        → result ≡ record { message = Some (Message.Fault Write); status = 4 } }
{
    let (message, status) = match error.kind() {
        FailureKind::InvalidData => (Message::WordNotUtf8, 2),
        FailureKind::OutOfMemory => (Message::Fault(Fault::Memory), 4),
        _ => (Message::Fault(Fault::Write), 4),
    };
    Ending {
        message: Some(message),
        status,
    }
}
