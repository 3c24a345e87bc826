//! The captures of a live run on several interfaces, each of which is read as it comes.
ghost use Rattle.std.specs.Prelude.{◌≡◌, ◌+◌, ◌≤◌, ◌==◌, IfErr, IfNone, IfOk, IfSome, None, length};
ghost use Rattle.std.specs.List.{list_any};
ghost use Rattle.racl_io.specs.Inputs.{most_bytes};
ghost use Rattle.racl_system.specs.LiveInterfaces.{AreApart, IsComingStatus, IsFirstTwice, interfaces_of};
ghost use Rattle.racl_system.specs.Readers.{IsLiveStatus};

use crate::capture_feeding::{Fed, Feed, Part};
use crate::live_files::live_policy_text;
use crate::merged_files::{MergedFile, hand_merged};
use crate::named_reader::opened_reader;
use crate::say_and_answer_status::say_fault;
use crate::say_policy_remarks::{Seen, say_unlooked};
use crate::system_files::refuse_folder;
use capture_stream::{Arrival, Arrivals, FaultAt};
use crossbeam_channel::{Receiver, Sender, bounded};
use racl_io::{Device, Fault};
use racl_options::{CaptureFile, Interfaces};
use racl_report::Unopened;
use std::alloc::Global;
use std::fs::{File, metadata};
use std::io;
use std::io::Eprint;
use std::sync::Wait;
use std::thread::{Threads, spawn};

/// How many parts are read before they are judged, at most.
const MOST_WAITING: usize = 16;

/// The parts of captures that threads read.
#[derive(Drop)]
pub struct ComingCaptures<'a, T> {
    rt: &'a T,
    from: Receiver<Fed, Global>,
    /// How many captures haven't ended.
    left: usize,
    /// How often one couldn't be read.
    failures: u64,
    /// The interface of the last one that couldn't be.
    unread: Option<u8>,
}

impl<T: Wait> Arrivals for ComingCaptures<'_, T> {
    ghost use Rattle.std.specs.Prelude.{None, Some};

    ghost parts = { λ _. None };

    ghost whole = { λ _. tt };

    ghost left = { λ coming. Some coming.left };

    ghost failures = { λ coming. coming.failures };

    ghost unread = { λ coming. coming.unread };

    fn next(&mut self) -> Result<Option<Arrival>, FaultAt> {
        if self.left == 0 {
            return Ok(None);
        }
        match self.from.recv(self.rt) {
            Ok(Fed::Part(Part { arrival })) => {
                if arrival.bytes.is_empty() {
                    self.left -= 1;
                }
                Ok(Some(arrival))
            }
            Ok(Fed::Unread(interface)) => {
                self.failures += 1;
                self.unread = Some(interface);
                Err(FaultAt {
                    fault: Fault::Read,
                    interface: Some(interface),
                })
            }
            Ok(Fed::Refused) | Err(_) => Err(FaultAt {
                fault: Fault::Memory,
                interface: None,
            }),
        }
    }
}

/// The text of a policy, and the captures of a live run on several interfaces.
#[derive(Drop)]
pub struct LiveInterfaces<'a, T> {
    pub text: Vec<u8>,
    pub captures: ComingCaptures<'a, T>,
}

// Hands on what the file of this name has as it comes. Opening it may wait for who writes it.
fn hand_named<T: Wait>(system: HostRuntime, rt: &T, name: &str, feed: &Feed) {
    match opened_reader(&system, name) {
        Ok(reader) => feed.hand_from(rt, &mut Device::new(reader)),
        Err(reason) => {
            let _ = system.eprintln(&Unopened { name, reason });
            feed.fail(rt, Fault::Read);
        }
    }
}

// Has a thread hand on what comes by the name of a capture; or adds its file to others, where it is a regular one.
fn begin_capture<T: Threads + Wait + Copy + Send + 'static>(
    system: &HostRuntime,
    rt: &T,
    alloc: Global,
    file: &CaptureFile<'_>,
    to: &Sender<Fed, Global>,
    files: &mut Vec<MergedFile<File>>,
) -> io::Result<()> {
    let CaptureFile { interface, name } = *file;
    let to = to.clone()?;
    let feed = Feed {
        alloc,
        interface,
        to,
    };
    if name != "-" {
        let found = metadata(system, name)?;
        refuse_folder(&found)?;
        if found.is_file() {
            files.push(MergedFile::new(feed, File::open(system, name)?))?;
            return Ok(());
        }
    }
    let (system, copied) = (*system, *rt);
    let name = String::from_str(alloc, name)?;
    let _ = spawn(
        rt,
        move || hand_named(system, &copied, name.as_str(), &feed),
    )?;
    Ok(())
}

// Has threads hand on what comes of these captures. Where one can't be had that is told, and None is answered.
fn begin_captures<'a, T: Threads + Wait + Copy + Send + 'static>(
    system: &HostRuntime,
    rt: &'a T,
    alloc: Global,
    captures: &[CaptureFile<'_>],
) -> io::Result<Option<ComingCaptures<'a, T>>>
    ensures { IfOk result (λ found. IfSome found (λ coming. (coming.left ≡ length captures.now) × (coming.failures ≡ 0))) }
{
    let (to, from) = bounded(alloc, MOST_WAITING)?;
    let mut files = Vec::new(alloc);
    for file in captures {
        if let Err(reason) = begin_capture(system, rt, alloc, file, &to, &mut files) {
            let name = file.name;
            system.eprintln(&Unopened { name, reason })?;
            return Ok(None);
        }
    }
    if !files.is_empty() {
        let copied = *rt;
        if spawn(rt, move || hand_merged(&copied, files)).is_err() {
            say_fault(system, Fault::Memory)?;
            return Ok(None);
        }
    }
    Ok(Some(ComingCaptures {
        rt,
        from,
        left: captures.len(),
        failures: 0,
        unread: None,
    }))
}

// Whether one of these captures is of the interface with this number.
fn is_named(captures: &[CaptureFile<'_>], number: u8) -> bool
    ensures { result ≡ list_any (λ capture. capture.interface == number) captures.now }
{
    captures.iter().any(|capture| capture.interface == number)
}

// The number that two of these captures have, if two have one: the first that is there again.
fn twice_among(captures: &[CaptureFile<'_>]) -> Option<u8>
    ensures some { IfSome result (IsFirstTwice (interfaces_of captures.now)) }
    ensures none { IfNone result (AreApart captures.now) }
{
    'captures: for place in 0..captures.len() {
        let number = captures[place].interface;
        if is_named(&captures[..place], number) {
            return Some(number);
        }
    }
    None
}

// The interfaces of these captures, of which nothing was read, as far as there is memory for their list.
fn unread_of(alloc: Global, captures: &[CaptureFile<'_>]) -> Vec<Seen<'static>> {
    let mut seen = Vec::new(alloc);
    for file in captures {
        let interface = file.interface;
        if seen
            .push(Seen {
                interface,
                front: &[],
            })
            .is_err()
        {
            return seen;
        }
    }
    seen
}

// Has threads hand on what comes of these captures. Where one can't be had, or two are of one interface, that is told, and the
// status is answered.
fn captures_or_told<'a, T: Threads + Wait + Copy + Send + 'static>(
    system: &HostRuntime,
    rt: &'a T,
    alloc: Global,
    captures: &[CaptureFile<'_>],
) -> io::Result<Result<ComingCaptures<'a, T>, u8>>
    ensures coming { IfOk result (λ found. IfOk found (λ coming. (coming.left ≡ length captures.now) × (coming.failures ≡ 0))) }
    ensures apart { IfOk result (λ found. IfOk found (λ _. AreApart captures.now)) }
    ensures status { IfOk result (λ found. IfErr found (IsComingStatus captures.now)) }
{
    if let Some(number) = twice_among(captures) {
        return match say_fault(system, Fault::Twice(number)) {
            Ok(status) => Ok(Err(status)),
            Err(error) => Err(error),
        };
    }
    match begin_captures(system, rt, alloc, captures) {
        Ok(Some(coming)) => Ok(Ok(coming)),
        Ok(None) => Ok(Err(4)),
        Err(error) => Err(error),
    }
}

/// Reads the policy of a live run on several interfaces, of which it says what is unlikely to be meant, and has threads read the
/// captures: regular files in one, in the order of their packets' moments, and each other one as it comes. Where one can't be had,
/// or two are of one interface, that is told, and the status is answered: 1 where two are, or the text is too large, else 4. No
/// clause can name what the threads hand on.
pub fn opened_live_interfaces<'a, T: Threads + Wait + Copy + Send + 'static>(
    system: &HostRuntime,
    rt: &'a T,
    alloc: Global,
    interfaces: &Interfaces<'_>,
) -> io::Result<Result<LiveInterfaces<'a, T>, u8>>
    ensures few { IfOk result (λ found. IfOk found (λ opened. length opened.text.items ≤ most_bytes + 1)) }
    ensures left { IfOk result (λ found. IfOk found (λ opened. opened.captures.left ≡ length interfaces.now.captures.items)) }
    ensures failures { IfOk result (λ found. IfOk found (λ opened. opened.captures.failures ≡ 0)) }
    ensures status { IfOk result (λ found. IfErr found (IsLiveStatus None)) }
    ensures apart { IfOk result (λ found. IfOk found (λ _. AreApart interfaces.now.captures.items)) }
{
    let text = match live_policy_text(system, alloc, interfaces.policy) {
        Ok(Ok(text)) => text,
        Ok(Err(status)) => return Ok(Err(status)),
        Err(error) => return Err(error),
    };
    let captures = interfaces.captures.as_slice();
    let coming = match captures_or_told(system, rt, alloc, captures) {
        Ok(Ok(coming)) => coming,
        Ok(Err(status)) => return Ok(Err(status)),
        Err(error) => return Err(error),
    };
    let seen = unread_of(alloc, captures);
    say_unlooked(
        system,
        alloc,
        interfaces.policy,
        text.as_slice(),
        seen.as_slice(),
    );
    Ok(Ok(LiveInterfaces {
        text,
        captures: coming,
    }))
}
