//! What is said behind a run of the files that it was on, and of how it ended.
ghost use Rattle.std.specs.Prelude.{◌≡◌, IfOk, IsTrue, false};
ghost use Rattle.racl_io.specs.Faults.{IsFaultOfCapture};
ghost use Rattle.racl_report.specs.Statuses.{status_of};
ghost use Rattle.racl_system.specs.LiveInterfaces.{can_be_of_capture, placeless_outcome};

use crate::say_and_answer_status::say_ending;
use crate::say_policy_remarks::{Seen, say_foreign, say_unlooked};
use crate::say_wrong_policy::{NamedPolicy, say_ended};
use capture_stream::FaultAt;
use packet_view::check_capture;
use racl_io::{CaptureBytes, Fault, Totals};
use racl_options::{Files, Interfaces, Options, TableSize};
use racl_report::{
    FramesRemark, Hint, InterfaceInput, KindRemark, ending, frames, hint, remark, shortage,
    shown_name, status,
};
use std::alloc::Global;
use std::fs::metadata;
use std::io;
use std::io::Eprint;

/// How many first bytes of a capture are looked at for notes on it.
const FRONT: usize = 4096;

/// How a run ended, whether the reader of what it wrote was gone, and the number of the system's reason why it couldn't be
/// written, where there is one.
#[derive(Drop)]
pub struct Ran {
    pub outcome: Result<Totals, Fault>,
    /// The place of the capture that has the fault, where one of several interfaces has it.
    pub faulty: Option<usize>,
    pub is_closed: bool,
    pub reason: Option<i32>,
}

/// What a run on files was on: their names, the policy's text, and the first bytes of the capture.
#[derive(Clone, Copy)]
pub struct SeenFiles<'a> {
    pub files: Files<'a>,
    pub text: &'a [u8],
    pub front: &'a [u8],
}

// Whether a capture that begins with these bytes has this fault there.
fn has_fault(front: &[u8], fault: Fault) -> bool
    ensures yes { IsTrue result → IsFaultOfCapture front.now fault }
    ensures no { result ≡ false → IsFaultOfCapture front.now fault → ⊥ }
{
    match check_capture(front, 0) {
        Ok(_) => false,
        Err(found) => Fault::from(found) == fault,
    }
}

// Whether a run's fault is told to be of its only capture, in the file of this name: it is in the first bytes, or it is a
// record behind them, in a file that can be looked at.
fn is_told_of_capture(rt: &HostRuntime, name: &str, front: &[u8], fault: Fault) -> bool {
    if has_fault(front, fault) {
        return true;
    }
    matches!(fault, Fault::LongRecord(_))
        && name != "-"
        && matches!(metadata(rt, name), Ok(found) if found.is_file())
}

/// Says what a capture's file of this name is, which begins with these bytes, where it isn't read for what it is, or for its
/// frames; and answers whether that is so.
pub fn is_kind_said(rt: &impl Eprint, name: &str, front: &[u8], fault: Fault) -> io::Result<bool> {
    if let Some(other) = remark(&Err(fault), front) {
        rt.eprintln(&KindRemark { name, other })?;
        return Ok(true);
    }
    if let Some(frames) = frames(&Err(fault), front) {
        rt.eprintln(&FramesRemark { name, frames })?;
        return Ok(true);
    }
    Ok(false)
}

// Says that a capture in the file of this name, which begins with these bytes, has the fault: of which interface it is, where
// there are several, and what the file is where it isn't read for what it is.
fn say_remark(
    rt: &impl Eprint,
    name: &str,
    interface: Option<u8>,
    front: &[u8],
    fault: Fault,
) -> io::Result<()> {
    let shown = shown_name(name);
    if let Some(number) = interface {
        rt.eprintln(format_args!("racl: that is {shown}, the capture of interface {number}"))?;
    }
    if !is_kind_said(rt, name, front, fault)? && interface.is_none() {
        rt.eprintln(format_args!("racl: that is {shown}"))?;
    }
    Ok(())
}

// Says behind a report how many packets found no pages, where some did, and what helps. Where standard error fails, the
// report stands.
fn say_shortage(rt: &impl Eprint, outcome: &Result<Totals, Fault>, ages: bool, tables: TableSize) {
    if let Some(shortage) = shortage(outcome, ages, tables) {
        let _ = rt.eprintln(&shortage);
    }
}

// What is looked at for notes on a run on files: the name of the policy's file, its text, and the captures' first bytes.
#[derive(Clone, Copy)]
struct Noted<'a> {
    policy: &'a str,
    text: &'a [u8],
    seen: &'a [Seen<'a>],
}

// Says the notes behind a run on files that is no live one: what is likely to be wrong with them.
fn say_run_notes(
    rt: &impl Eprint,
    alloc: Global,
    options: &Options,
    noted: Noted<'_>,
    outcome: &Result<Totals, Fault>,
) -> io::Result<()> {
    let Noted { policy, text, seen } = noted;
    if outcome.is_ok() {
        say_foreign(rt, alloc, policy, text, seen);
    }
    if let Some(hint) = hint(outcome, text) {
        rt.eprintln(&hint)?;
    }
    say_shortage(rt, outcome, options.ages, options.tables);
    Ok(())
}

// Says why a report on files couldn't be written, but that its reader was gone.
fn say_unwritten(rt: &impl Eprint, ran: &Ran) -> io::Result<()> {
    match ran.reason {
        Some(number) if matches!(ran.outcome, Err(Fault::Write)) => {
            let reason = io::Error::from_raw_os_error(number);
            rt.eprintln(format_args!("racl: standard output: {reason}"))
        }
        _ => Ok(()),
    }
}

// Says how a run on files ended, but for the notes on these; and answers the status.
fn say_ran(rt: &impl Eprint, alloc: Global, policy: NamedPolicy<'_>, ran: &Ran) -> io::Result<u8>
    ensures { IfOk result (λ status. status ≡ status_of ran.now.outcome) }
{
    if ran.is_closed {
        // Who asked for a report of files took as much of it as was wanted.
        return Ok(status(&ran.outcome));
    }
    let status = match say_ended(rt, alloc, policy, &ran.outcome) {
        Ok(status) => status,
        Err(error) => return Err(error),
    };
    say_unwritten(rt, ran)?;
    Ok(status)
}

/// Says how a run on the files of a policy and a capture ended, with notes on what is likely to be wrong with them; and answers
/// the status.
pub fn say_end_of_files(
    rt: &HostRuntime,
    alloc: Global,
    options: &Options,
    input: SeenFiles<'_>,
    ran: &Ran,
) -> io::Result<u8>
    ensures { IfOk result (λ status. status ≡ status_of ran.now.outcome) }
{
    let SeenFiles { files, text, front } = input;
    let policy = NamedPolicy {
        name: files.policy,
        text,
    };
    let status = match say_ran(rt, alloc, policy, ran) {
        Ok(status) => status,
        Err(error) => return Err(error),
    };
    if let Err(fault) = ran.outcome
        && is_told_of_capture(rt, files.capture, front, fault)
    {
        say_remark(rt, files.capture, None, front, fault)?;
    }
    let seen = Seen {
        interface: 0,
        front,
    };
    let noted = Noted {
        policy: files.policy,
        text,
        seen: &[seen],
    };
    say_run_notes(rt, alloc, options, noted, &ran.outcome)?;
    Ok(status)
}

/// Says how a run on standard input alone ended, and answers the status.
pub fn say_outcome(rt: &impl Eprint, outcome: &Result<Totals, Fault>) -> io::Result<u8>
    ensures { IfOk result (λ status. status ≡ status_of outcome.now) }
{
    say_ending(rt, &ending(outcome))
}

// The first bytes of captures, for the notes on these, as far as there is memory for their list.
fn seen_of_interfaces(alloc: Global, captures: &[CaptureBytes]) -> Vec<Seen<'_>> {
    let mut seen = Vec::new(alloc);
    for capture in captures {
        let interface = capture.interface;
        let front = &capture.bytes[..capture.bytes.len().min(FRONT)];
        if seen.push(Seen { interface, front }).is_err() {
            return seen;
        }
    }
    seen
}

// Says which of the captures of interfaces has the fault with which a run ended, where one has it.
fn say_faulty(
    rt: &impl Eprint,
    interfaces: &Interfaces<'_>,
    seen: &[Seen<'_>],
    ran: &Ran,
) -> io::Result<()> {
    let (Err(fault), Some(place)) = (ran.outcome, ran.faulty) else {
        return Ok(());
    };
    let (Some(file), Some(capture)) = (interfaces.captures.get(place), seen.get(place)) else {
        return Ok(());
    };
    let is_one = interfaces.captures.len() == 1;
    let interface = if is_one { None } else { Some(file.interface) };
    match fault {
        Fault::Twice(_) => Ok(()),
        _ => say_remark(rt, file.name, interface, capture.front, fault),
    }
}

/// Says how a run on captures of interfaces ended, with notes, as behind other runs; and answers the status.
pub fn say_end_of_interfaces(
    rt: &impl Eprint,
    alloc: Global,
    options: &Options,
    interfaces: &Interfaces<'_>,
    input: &InterfaceInput,
    ran: &Ran,
) -> io::Result<u8>
    ensures { IfOk result (λ status. status ≡ status_of ran.now.outcome) }
{
    let policy = NamedPolicy {
        name: interfaces.policy,
        text: &input.text,
    };
    let status = match say_ran(rt, alloc, policy, ran) {
        Ok(status) => status,
        Err(error) => return Err(error),
    };
    let seen = seen_of_interfaces(alloc, &input.captures);
    say_faulty(rt, interfaces, seen.as_slice(), ran)?;
    if ran.outcome.is_ok() {
        say_unlooked(rt, alloc, interfaces.policy, &input.text, seen.as_slice());
    }
    let noted = Noted {
        policy: interfaces.policy,
        text: &input.text,
        seen: seen.as_slice(),
    };
    say_run_notes(rt, alloc, options, noted, &ran.outcome)?;
    Ok(status)
}

/// Says how a run ended that is followed while it tells, as a live one, with notes on what is likely to be wrong with its files;
/// and answers the status.
pub fn say_end_of_live(
    rt: &impl Eprint,
    alloc: Global,
    options: &Options,
    input: SeenFiles<'_>,
    outcome: &Result<Totals, Fault>,
) -> io::Result<u8>
    ensures { IfOk result (λ status. status ≡ status_of outcome.now) }
{
    let SeenFiles { files, text, front } = input;
    let policy = NamedPolicy {
        name: files.policy,
        text,
    };
    let status = match say_ended(rt, alloc, policy, outcome) {
        Ok(status) => status,
        Err(error) => return Err(error),
    };
    if let Some(hint) = hint(outcome, text) {
        rt.eprintln(&hint)?;
    }
    if let Err(fault) = outcome {
        is_kind_said(rt, files.capture, front, *fault)?;
    }
    let seen = Seen {
        interface: 0,
        front,
    };
    say_foreign(rt, alloc, files.policy, text, &[seen]);
    let ages = options.live || options.ages;
    say_shortage(rt, outcome, ages, options.tables);
    Ok(status)
}

// Whether a fault is one of a capture, whatever its part that came last has to do with it.
fn is_of_capture(fault: Fault) -> bool
    ensures { result ≡ can_be_of_capture fault }
{
    matches!(
        fault,
        Fault::Read
            | Fault::Short
            | Fault::Magic
            | Fault::Version
            | Fault::LinkType
            | Fault::LongRecord(_)
    )
}

// Says which of the captures of interfaces has the fault with which a live run ended, where one has it.
fn say_faulty_live(
    rt: &impl Eprint,
    interfaces: &Interfaces<'_>,
    found: &FaultAt,
) -> io::Result<()> {
    let FaultAt { fault, interface } = *found;
    if !is_of_capture(fault) {
        return Ok(());
    }
    let is_one = interfaces.captures.len() == 1;
    for file in interfaces.captures.as_slice() {
        if interface == Some(file.interface) {
            let shown = if is_one { None } else { interface };
            say_remark(rt, file.name, shown, &[], fault)?;
        }
    }
    if fault == Fault::LinkType {
        rt.eprintln(&Hint::Ethernet)?;
    }
    Ok(())
}

/// Says how a live run on several interfaces ended, and which capture has the fault, where one has it; and answers the status.
pub fn say_end_of_live_interfaces(
    rt: &impl Eprint,
    alloc: Global,
    options: &Options,
    interfaces: &Interfaces<'_>,
    text: &[u8],
    outcome: &Result<Totals, FaultAt>,
) -> io::Result<u8>
    ensures { IfOk result (λ status. status ≡ status_of (placeless_outcome outcome.now)) }
{
    let told = match outcome {
        Ok(totals) => Ok(*totals),
        Err(found) => Err(found.fault),
    };
    let policy = NamedPolicy {
        name: interfaces.policy,
        text,
    };
    let status = match say_ended(rt, alloc, policy, &told) {
        Ok(status) => status,
        Err(error) => return Err(error),
    };
    if let Err(found) = outcome {
        say_faulty_live(rt, interfaces, found)?;
    }
    if let Some(hint) = hint(&told, text) {
        rt.eprintln(&hint)?;
    }
    say_shortage(rt, &told, true, options.tables);
    Ok(status)
}
