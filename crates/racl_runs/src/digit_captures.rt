//! Captures as digits, which are decoded one after the other.
ghost use Rattle.std.specs.Prelude.{◌≡◌, ◌≢◌, ◌⊎◌, [], IfErr, IfOk};
ghost use Rattle.racl_io.specs.declared.fault.Fault.TheVariants.{Memory};
ghost use Rattle.racl_io.specs.declared.marker_line.Form.TheVariants.{Binary, Hexadecimal};
ghost use Rattle.racl_io.specs.declared.marker_line.Form.TheVariants as form;
ghost use Rattle.racl_io.specs.Faults.{IsFaultOfContent, IsFaultOfOne};
ghost use Rattle.racl_runs.specs.inner.Captures;
ghost use Rattle.racl_runs.specs.inner.Captures.{AreDecoded, HasDecoded, HasTaken, IsFaultAt};

use packet_view::check_capture;
use racl_io::{
    CaptureBytes, Captured, Digits, Fault, Form, Numbered, cut_at_numbered_marker, decode_digits,
};
use racl_report::is_interface_seen;
use std::alloc::Global;

/// Captures that were decoded, in their order.
#[derive(Drop)]
pub struct Decoded {
    pub captures: Vec<CaptureBytes>,
    /// What the report tells of each.
    pub told: Vec<Captured>,
}

/// Captures with numbers of which some were decoded.
#[derive(Drop)]
pub struct DigitWalk<'b> {
    pub decoded: Decoded,
    /// The numbers of their interfaces, the last one first.
    pub seen: Vec<u8>,
    /// The next one's number, and what follows its marker line.
    pub next: Option<Numbered<'b>>,
}

// No capture as digits was decoded yet.
fn none_decoded(alloc: Global) -> Decoded
    ensures captures { result.captures.items ≡ [] }
    ensures told { result.told.items ≡ [] }
{
    Decoded {
        captures: Vec::new(alloc),
        told: Vec::new(alloc),
    }
}

// Decodes one more capture as digits, which was taken at the interface with this number, and which the report names or
// doesn't.
fn decode_behind(
    alloc: Global,
    decoded: Decoded,
    named: Option<u8>,
    interface: u8,
    digits: &[u8],
) -> Result<Decoded, Fault>
    ensures ok { IfOk result (HasDecoded decoded named interface digits.now) }
    ensures fault { IfErr result (λ fault. (fault ≡ Memory) ⊎ IsFaultOfOne Hexadecimal digits.now fault) }
{
    let Decoded {
        mut captures,
        mut told,
    } = decoded;
    let bytes = match decode_digits(alloc, digits) {
        Ok(bytes) => bytes,
        Err(fault) => return Err(fault),
    };
    let checked = check_capture(&bytes, interface)?;
    told.push(Captured {
        named,
        packets: checked.records.count(),
        truncated: checked.truncated,
    })?;
    captures.push(CaptureBytes { interface, bytes })?;
    Ok(Decoded { captures, told })
}

// Decodes the next one of captures as digits, which come in turn.
fn decode_next<'b>(
    alloc: Global,
    walk: DigitWalk<'b>,
    capture: Numbered<'b>,
) -> Result<DigitWalk<'b>, Fault>
    ensures ok { IfOk result (HasTaken walk.entry capture.entry) }
    ensures fault { IfErr result (λ fault. (fault ≡ Memory) ⊎ IsFaultAt walk.entry.seen.items capture.entry fault) }
{
    let DigitWalk {
        decoded,
        mut seen,
        ..
    } = walk;
    let number = capture.interface;
    if is_interface_seen(&seen, number) {
        return Err(Fault::Twice(number));
    }
    let Digits { digits, next } = cut_at_numbered_marker(capture.content);
    let decoded = match decode_behind(alloc, decoded, Some(number), number, digits) {
        Ok(decoded) => decoded,
        Err(fault) => return Err(fault),
    };
    seen.insert(0, number)?;
    Ok(DigitWalk {
        decoded,
        seen,
        next,
    })
}

// Decodes in turn all captures as digits that have numbers.
fn decode_each(alloc: Global, first: Numbered<'_>) -> Result<Decoded, Fault>
    ensures ok { IfOk result (AreDecoded (form.Numbered first.entry.interface) first.entry.content.now) }
    ensures fault { IfErr result (λ fault. (fault ≡ Memory) ⊎ IsFaultAt [] first.entry fault) }
{
    let mut walk = DigitWalk {
        decoded: none_decoded(alloc),
        seen: Vec::new(alloc),
        next: Some(first),
    };
    'captures: while let Some(capture) = walk.next {
        walk = match decode_next(alloc, walk, capture) {
            Ok(walk) => walk,
            Err(fault) => return Err(fault),
        };
    }
    let DigitWalk { decoded, .. } = walk;
    Ok(decoded)
}

/// Whether captures behind a marker line of this form have numbers.
pub fn has_number(form: Form) -> bool
    ensures { result ≡ Captures.has_number form }
{
    matches!(form, Form::Numbered(_))
}

/// Decodes all captures as digits that follow a marker line of this form: the only one, or those with numbers.
pub fn decode_captures(alloc: Global, form: Form, content: &[u8]) -> Result<Decoded, Fault>
    requires { form ≢ Binary }
    ensures ok { IfOk result (AreDecoded form content.now) }
    ensures fault { IfErr result (λ fault. (fault ≡ Memory) ⊎ IsFaultOfContent form content.now fault) }
{
    match form {
        Form::Binary => unreachable!(),
        Form::Hexadecimal => decode_behind(alloc, none_decoded(alloc), None, 0, content),
        Form::Numbered(interface) => decode_each(alloc, Numbered { interface, content }),
    }
}
