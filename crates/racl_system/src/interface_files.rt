//! The files of an input whose captures come apart, and what they have.
ghost use Rattle.std.specs.Prelude.{◌≡◌, ◌+◌, ◌-◌, ◌<◌, ◌≤◌, ◌^◌, ◌⊎◌, IfErr, IfOk, IfSome, length, map};
ghost use Rattle.packet_view.specs.Bytes.{AreBytes};
ghost use Rattle.racl_io.specs.Inputs.{most_bytes};
ghost use Rattle.racl_io.specs.Transfers.{HasReadWithin};
ghost use Rattle.racl_io.specs.declared.fault.Fault.TheVariants.{Memory, Read as ReadFault, TooLarge};
ghost use Rattle.racl_options.specs.Origins.{capture_facts};
ghost use Rattle.racl_report.specs.InterfaceInputs.{AreAllBytes, bytes_in};
ghost use Rattle.racl_system.specs.InterfaceFiles.{AreAllOf, AreUnread, IsInterfacesStatus, given_by, given_in};
ghost use Rattle.racl_system.specs.PolicyTexts.{ended_lines};
ghost use Rattle.racl_system.specs.Readers.{left_in};

use crate::input_files::text_or_told;
use crate::interface_capture::InterfaceCapture;
use crate::named_reader::{Reader, opened_or_told};
use crate::progress::Watched;
use crate::say_and_answer_status::say_fault;
use crate::system_files::SystemFiles;
use racl_io::{CaptureBytes, Device, Fault, MOST_BYTES, Source, read_until};
use racl_options::{CaptureFile, Interfaces};
use racl_report::InterfaceInput;
use std::alloc::Global;
use std::io;
use std::io::{Eprint, Read};

// Opens the files of interfaces' captures in their order. Where one can't be opened that is told, and None is answered.
fn opened_interfaces<S: SystemFiles + Eprint>(
    system: &S,
    alloc: Global,
    files: &[CaptureFile<'_>],
) -> io::Result<Option<Vec<InterfaceCapture<Reader<S::Input, S::File>>>>>
    ensures { IfOk result (λ found. IfSome found (λ all.
        given_by (left_in S.Input.remaining S.File.remaining) all.items ≡ given_in (S.named system.now) (map capture_facts files.now))) }
{
    let mut captures = Vec::new(alloc);
    for file in files {
        let reader = match opened_or_told(system, file.name) {
            Ok(Some(reader)) => reader,
            Ok(None) => return Ok(None),
            Err(error) => return Err(error),
        };
        let interface = file.interface;
        captures.push(InterfaceCapture { interface, reader })?;
    }
    Ok(Some(captures))
}

// Each number of a slice of bytes is a byte: what the type says, as a clause for callers.
fn bytes_fit(bytes: &[u8])
    ensures { AreBytes bytes.now }
{}

// Reads all bytes of a capture, of which there may be so many.
fn read_interface<R: Source>(alloc: Global, reader: &mut R, most: usize) -> Result<Vec<u8>, Fault>
    requires sound { R.failures reader.old < 2 ^ 64 - 1 }
    requires few { most ≤ most_bytes }
    ensures few { IfOk result (λ bytes. length bytes.items ≤ most) }
    ensures fit { IfOk result (λ bytes. AreBytes bytes.items) }
    ensures all { IfOk result (λ bytes. IfSome (R.bytes reader.old) (λ all. bytes.items ≡ all)) }
    ensures fault { IfErr result (λ fault. (fault ≡ Memory) ⊎ ((fault ≡ ReadFault) ⊎ ((fault ≡ TooLarge) × IfSome (R.bytes reader.old) (λ all. most < length all)))) }
    ensures within { HasReadWithin R.bytes R.failures (most + 1) reader.old reader.new result }
{
    let mut bytes = Vec::new(alloc);
    match read_until(reader, &mut bytes, most + 1) {
        Ok(true) => {
            bytes.shrink_to_fit();
            bytes_fit(bytes.as_slice());
            Ok(bytes)
        }
        Ok(false) => Err(Fault::TooLarge),
        Err(fault) => Err(fault),
    }
}

// Reads all bytes of each capture behind a text of so many, and shows on a terminal how much of one was read.
fn read_interfaces<R: Read + Drop>(
    rt: &HostRuntime,
    alloc: Global,
    text: usize,
    captures: Vec<InterfaceCapture<R>>,
) -> Result<Vec<CaptureBytes>, Fault>
    ensures few { IfOk result (λ all. text + bytes_in all.items ≤ most_bytes) }
    ensures fit { IfOk result (λ all. AreAllBytes all.items) }
    ensures all { IfOk result (λ all. AreAllOf (given_by R.remaining captures.items) all.items) }
    ensures fault { IfErr result (AreUnread text (given_by R.remaining captures.items)) }
{
    let mut all = Vec::new(alloc);
    let Some(mut most) = MOST_BYTES.checked_sub(text) else {
        return Err(Fault::TooLarge);
    };
    for capture in captures {
        let InterfaceCapture { interface, reader } = capture;
        let mut watched = Watched::new(rt, Device::new(reader));
        let read = read_interface(alloc, &mut watched, most);
        watched.progress.end();
        let bytes = match read {
            Ok(bytes) => bytes,
            Err(fault) => return Err(fault),
        };
        most -= bytes.len();
        all.push(CaptureBytes { interface, bytes })?;
    }
    Ok(all)
}

/// Opens the files of a policy and of interfaces' captures, and then reads them. Where they can't be had, or a marker line
/// stands in the policy, that is told, and the status is answered: 1 where they are wrong so or have too many bytes, else 4.
pub fn read_interface_input<S: SystemFiles + Eprint>(
    rt: &HostRuntime,
    system: &S,
    alloc: Global,
    interfaces: &Interfaces<'_>,
) -> io::Result<Result<InterfaceInput, u8>>
    ensures text { IfOk result (λ found. IfOk found (λ input.
        IfSome (S.named system.now interfaces.now.policy.now) (λ all. input.text.items ≡ ended_lines all))) }
    ensures captures { IfOk result (λ found. IfOk found (λ input.
        AreAllOf (given_in (S.named system.now) (map capture_facts interfaces.now.captures.items)) input.captures.items)) }
    ensures status { IfOk result (λ found. IfErr found (IsInterfacesStatus (S.named system.now interfaces.now.policy.now)
        (given_in (S.named system.now) (map capture_facts interfaces.now.captures.items)))) }
{
    let policy = match opened_or_told(system, interfaces.policy) {
        Ok(Some(policy)) => policy,
        Ok(None) => return Ok(Err(4)),
        Err(error) => return Err(error),
    };
    let captures = match opened_interfaces(system, alloc, interfaces.captures.as_slice()) {
        Ok(Some(captures)) => captures,
        Ok(None) => return Ok(Err(4)),
        Err(error) => return Err(error),
    };
    let text = match text_or_told(system, alloc, interfaces.policy, policy) {
        Ok(Ok(text)) => text,
        Ok(Err(status)) => return Ok(Err(status)),
        Err(error) => return Err(error),
    };
    let fault = match read_interfaces(rt, alloc, text.len(), captures) {
        Ok(captures) => return Ok(Ok(InterfaceInput { text, captures })),
        Err(fault) => fault,
    };
    match say_fault(system, fault) {
        Ok(status) => Ok(Err(status)),
        Err(error) => Err(error),
    }
}
