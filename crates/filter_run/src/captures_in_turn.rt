//! The packets of captures whose bytes are at hand, one capture after the other.
ghost use Rattle.std.specs.Prelude.{◌≡◌, ◌<◌, List, MatchResult};
ghost use Rattle.packet_view.specs.Captures.{End, IsCapture, RecordFacts};
ghost use Rattle.racl_io.specs.declared.fault.Fault.TheVariants.{Memory};
ghost use Rattle.filter_run.specs.CapturesInTurn.{HasReadCapture};

use crate::batch::Batch;
use crate::capture_start::HEADER_BYTES;
use crate::latest_second::latest_where;
use crate::source::{CaptureSource, Step};
use capture_stream::{FaultAt, find_records};
use packet_view::capture_header;
use racl_io::{CaptureBytes, Fault, ReadBuffer};
use std::alloc::Global;

/// Captures whose bytes are at hand, one after the other: each is a batch.
#[derive(Drop)]
pub struct CapturesInTurn<'c> {
    pub alloc: Global,
    pub captures: &'c [CaptureBytes],
    /// How many of them were given.
    pub given: usize,
    /// How many packets these have.
    pub packets: usize,
    /// Whether the latest second of all packets is noted.
    pub noted: bool,
    /// The latest second of those that were given; before the first packet 0.
    pub latest: u32,
}

// A capture's records are a batch, behind so many packets of others.
fn batch_of(capture: &CaptureBytes, room: ReadBuffer, others: usize) -> Result<Batch, Fault>
    requires right { (records : List RecordFacts) × (end : End) × IsCapture capture.now.bytes.items records end }
    requires few { others < 4611686018427387904 }
    ensures { MatchResult result (HasReadCapture others capture.now) (λ fault. fault ≡ Memory) }
{
    let order = capture_header(&capture.bytes)?;
    let mut bytes = room;
    bytes.hold(&capture.bytes[HEADER_BYTES..])?;
    let found = find_records(bytes.bytes(), order);
    Ok(Batch {
        others,
        interface: capture.interface,
        order,
        numbers: None,
        bytes,
        found,
    })
}

impl<'c> CaptureSource for CapturesInTurn<'c> {
    ghost use Rattle.std.specs.Prelude.{◌≡◌};
    ghost use Rattle.racl_io.specs.declared.fault.Fault.TheVariants.{Memory};
    ghost use Rattle.filter_run.specs.CapturesInTurn.{HasGivenAllInTurn, HasGivenInTurn};

    ghost gave = { λ begun batches now. HasGivenInTurn begun batches now };

    ghost over = { λ begun batches captures now. HasGivenAllInTurn begun batches captures now };

    ghost failed = { λ begun batches found now. found.fault ≡ Memory };

    // The next capture is given. What is told of each stands behind its packets, and so of none at the end.
    fn next(&mut self, room: ReadBuffer) -> Result<Step, FaultAt> {
        if self.given >= self.captures.len() {
            return Ok(Step::End(Vec::new(self.alloc)));
        }
        let capture = &self.captures[self.given];
        let batch = match batch_of(capture, room, self.packets) {
            Ok(batch) => batch,
            Err(fault) => {
                return Err(FaultAt {
                    fault,
                    interface: Some(capture.interface),
                });
            }
        };
        self.latest = latest_where(self.noted, self.latest, batch.packets());
        self.packets += batch.found.count;
        self.given += 1;
        Ok(Step::Batch(batch))
    }
}
