//! Captures of interfaces that come apart, which are looked at one after the other.
ghost use Rattle.std.specs.Prelude.{◌≡◌, ◌==◌, ◌⊎◌, ◌≤◌, ◌+◌, [], List, IfErr, IfOk, length};
ghost use Rattle.std.specs.List.{list_any};
ghost use Rattle.packet_view.specs.Captures.{PacketFacts};
ghost use Rattle.racl_io.specs.declared.fault.Fault.TheVariants.{Memory};
ghost use Rattle.racl_io.specs.Inputs.{most_bytes};
ghost use Rattle.racl_report.specs.InterfaceInputs.{AreAllBytes, AreTakenApart, IsFaultBehind, IsOwnFault, IsTakenApart, bytes_in, placeless};

use packet_view::check_capture;
use racl_io::{CaptureBytes, Captured, Fault};
use std::alloc::Global;

/// A policy's text, and the captures of interfaces in their order. Together they have no more bytes than an input may.
#[derive(Drop)]
pub struct InterfaceInput {
    pub text: Vec<u8>,
    pub captures: Vec<CaptureBytes>,
    pub ghost fit: { AreAllBytes captures.items },
    pub ghost few: { length text.items + bytes_in captures.items ≤ most_bytes },
}

/// A fault, and the capture that has it.
#[derive(Clone, Copy, Debug, PartialEq, Eq)]
pub struct PlacedFault {
    pub fault: Fault,
    /// The place of the capture among the captures, from 0; None where the fault is no capture's.
    pub place: Option<usize>,
}

/// Whether one of the captures of these interfaces is of the interface with this number.
pub fn is_interface_seen(seen: &[u8], number: u8) -> bool
    ensures { result ≡ list_any (λ other. other == number) seen.now }
{
    seen.iter().any(|other| *other == number)
}

// What the report tells of a capture, before which captures of these interfaces were looked at.
fn told_of_interface(seen: &[u8], capture: &CaptureBytes) -> Result<Captured, Fault>
    ensures ok { IfOk result (λ captured. (packets : List PacketFacts) × IsTakenApart seen.now capture.now packets captured) }
    ensures fault { IfErr result (IsOwnFault seen.now capture.now) }
{
    let number = capture.interface;
    if is_interface_seen(seen, number) {
        return Err(Fault::Twice(number));
    }
    let checked = match check_capture(&capture.bytes, number) {
        Ok(checked) => checked,
        Err(cause) => return Err(Fault::from(cause)),
    };
    Ok(Captured {
        named: Some(number),
        packets: checked.records.count(),
        truncated: checked.truncated,
    })
}

/// What the report tells of each of these captures, or which of them is the first at fault.
pub fn told_of_interfaces(
    alloc: Global,
    captures: &[CaptureBytes],
) -> Result<Vec<Captured>, PlacedFault>
    ensures ok { IfOk result (λ told. (packets : List PacketFacts) × AreTakenApart [] captures.now packets told.items) }
    ensures fault { IfErr result (λ found. (found ≡ placeless Memory) ⊎ IsFaultBehind 0 [] captures.now found) }
{
    let mut told = Vec::new(alloc);
    let mut seen = Vec::new(alloc);
    'captures: for place in 0..captures.len() {
        let capture = &captures[place];
        let captured = match told_of_interface(&seen, capture) {
            Ok(captured) => captured,
            Err(fault) => {
                let place = Some(place);
                return Err(PlacedFault { fault, place });
            }
        };
        let (Ok(()), Ok(())) = (told.push(captured), seen.insert(0, capture.interface)) else {
            return Err(PlacedFault {
                fault: Fault::Memory,
                place: None,
            });
        };
    }
    Ok(told)
}
