//! Bytes of captures that come apart, as threads that read hand them on.
ghost use Rattle.std.specs.Prelude.{◌≡◌, ◌≤◌, IfSome, length};

use capture_stream::Arrival;
use crossbeam_channel::Sender;
use racl_io::{DeviceFault, Fault, Source};
use std::alloc::Global;
use std::sync::Wait;

/// How many bytes are handed on at once, at most.
pub const PART_BYTES: usize = 65_536;

/// Some bytes of a capture, of which not too many are handed on at once, or its end.
#[derive(Drop)]
pub struct Part {
    pub arrival: Arrival,
    pub ghost few: { length arrival.bytes.items ≤ 65536 },
}

/// What a thread that reads hands on.
#[derive(Drop)]
pub enum Fed {
    Part(Part),
    /// The capture of the interface with this number can't be read any further.
    Unread(u8),
    /// Memory ran out.
    Refused,
}

/// Where the bytes of the capture of an interface are handed on. No clause can name what a channel holds, so that what its
/// methods hand on has none, but that no part is too long, which is a fact of `Part`.
#[derive(Drop)]
pub struct Feed {
    pub alloc: Global,
    pub interface: u8,
    pub to: Sender<Fed, Global>,
}

// Some bytes of a capture; None where memory ran out.
fn part_of(alloc: Global, interface: u8, bytes: &[u8]) -> Option<Part>
    requires { length bytes.now ≤ 65536 }
    ensures { IfSome result (λ part. (part.arrival.interface ≡ interface) × (part.arrival.bytes.items ≡ bytes.now)) }
{
    let Ok(bytes) = Vec::from_slice(alloc, bytes) else {
        return None;
    };
    Some(Part {
        arrival: Arrival { interface, bytes },
    })
}

impl Feed {
    ghost use Rattle.std.specs.Prelude.{◌≡◌, ◌≢◌, ◌-◌, ◌<◌, ◌≤◌, ◌^◌, length};

    // Hands on some bytes, or the end where there are none. Whether more is wanted.
    fn hand(&self, rt: &impl Wait, bytes: &[u8]) -> bool
        requires { length bytes.now ≤ 65536 }
    {
        match part_of(self.alloc, self.interface, bytes) {
            Some(part) => self.to.send(rt, Fed::Part(part)).is_ok(),
            None => {
                self.fail(rt, Fault::Memory);
                false
            }
        }
    }

    /// Hands on all these bytes. Whether more is wanted. No clause can name what a channel holds: the live runs of
    /// `tests/run` look at what comes.
    pub fn hand_all(&self, rt: &impl Wait, bytes: &[u8]) -> bool {
        let mut rest = bytes;
        'parts: while !rest.is_empty() {
            let (part, behind) = rest.split_at(rest.len().min(PART_BYTES));
            if !self.hand(rt, part) {
                return false;
            }
            rest = behind;
        }
        true
    }

    /// Hands on that the capture has ended. No clause can name what a channel holds: the live runs of
    /// `tests/run` look at what comes.
    pub fn end(&self, rt: &impl Wait) {
        let _ = self.hand(rt, &[]);
    }

    // What tells of a fault: a failed read, or else that memory ran out.
    fn fed_of(&self, fault: Fault) -> Fed
        ensures read { fault ≡ Fault.Read → result ≡ Fed.Unread self.now.interface }
        ensures memory { fault ≢ Fault.Read → result ≡ Fed.Refused }
    {
        match fault {
            Fault::Read => Fed::Unread(self.interface),
            _ => Fed::Refused,
        }
    }

    /// Hands on that the capture can't be read any further, or that memory ran out. No clause can name what a channel holds: the live runs of
    /// `tests/run` look at what comes.
    pub fn fail(&self, rt: &impl Wait, fault: Fault) {
        let _ = self.to.send(rt, self.fed_of(fault));
    }

    /// Hands on what a source has, as it comes, to its end. No clause can name what a channel holds: the live runs of
    /// `tests/run` look at what comes.
    pub fn hand_from<R: Source>(&self, rt: &impl Wait, source: &mut R)
        requires { R.failures source.old < 2 ^ 64 - 1 }
    {
        let mut room = [0u8; PART_BYTES];
        'parts: for _ in rt.forever() {
            match source.read(&mut room) {
                Ok(n) => {
                    if !self.hand(rt, &room[..n]) || n == 0 {
                        return;
                    }
                }
                Err(DeviceFault) => {
                    self.fail(rt, Fault::Read);
                    return;
                }
            }
        }
    }
}
