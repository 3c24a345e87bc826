//! The record at the front of some bytes, and the whole records there.
ghost use Rattle.std.specs.Prelude.{◌≡◌, ◌≤◌, ◌+◌, All, IfSome, length};
ghost use Rattle.packet_view.specs.Captures.{AreRecords, IsPiece, PieceFacts, Record, piece_facts};
ghost use Rattle.packet_view.specs.CheckedCaptures.{records_of};
ghost use Rattle.packet_view.specs.Fronts.{IsSplit, Stops};
ghost use Rattle.packet_view.specs.Marks.{IsMark};
ghost use Rattle.packet_view.specs.RecordLists.{front_record};
ghost use Rattle.packet_view.specs.inner.RecordSteps.{part_of};

use crate::capture::{Order, micros_in, u32_in};
use crate::packets_of_records::Records;
use crate::record_marks::{MARKS, Mark, MarkNotes};

/// The most bytes that a record keeps of a frame.
const KEPT_LIMIT: usize = 262_144;

/// What is at the front of the records that are left.
#[derive(Clone, Copy)]
pub enum NextRecord<'a> {
    /// A record, and the bytes after it.
    Whole {
        moment: u32,
        micros: u32,
        frame: &'a [u8],
        rest: &'a [u8],
    },
    /// No byte.
    End,
    /// The front of a record, and not all of it.
    Truncated,
    /// A record that keeps more than 262144 bytes.
    TooLong,
}

/// The piece at the front of what is left of a capture, by how many bytes the record there keeps.
#[inline]
fn front_piece(rest: &[u8], order: Order) -> NextRecord<'_>
    ensures { piece_facts result ≡ part_of order rest.now }
{
    if rest.is_empty() {
        return NextRecord::End;
    }
    if rest.len() < 16 {
        return NextRecord::Truncated;
    }
    let kept = u32_in(order, &rest[8..]) as usize;
    if kept > KEPT_LIMIT {
        return NextRecord::TooLong;
    }
    if rest.len() - 16 < kept {
        return NextRecord::Truncated;
    }
    NextRecord::Whole {
        moment: u32_in(order, rest),
        micros: micros_in(order, rest),
        frame: &rest[16..16 + kept],
        rest: &rest[16 + kept..],
    }
}

/// What is at the front of the records that are left of a capture in this order.
#[inline]
pub fn next_record(rest: &[u8], order: Order) -> NextRecord<'_>
    ensures shown { IsPiece order rest.now (piece_facts result) }
    ensures only { (other : PieceFacts) → IsPiece order rest.now other → other ≡ piece_facts result }
{
    front_piece(rest, order)
}

/// Why no more whole records stand at the front.
#[derive(Clone, Copy, Debug)]
pub enum Stop {
    /// No byte is left.
    End,
    /// The front of a record is left, and not all of it.
    Truncated,
    /// A record is left that keeps more than 262144 bytes.
    TooLong,
}

/// The whole records at the front of some bytes.
#[derive(Clone, Copy)]
pub struct Front<'a> {
    pub records: Records<'a>,
    /// Places where some of them begin.
    pub marks: [Mark; MARKS],
    /// The bytes behind them.
    pub rest: &'a [u8],
    pub stop: Stop,
}

// Where the record at the front keeps so many bytes, the bytes after it. They are found from that number and not from the
// one that was read: so the walk goes on before the read is done.
#[inline(always)]
fn rest_if_len(rest: &[u8], order: Order, predicted_len: usize) -> Option<&[u8]>
    requires few { predicted_len ≤ 262144 }
    requires long { 16 + predicted_len ≤ length rest.now }
    ensures { IfSome result (λ behind. part_of order rest.now ≡ Record (front_record order rest.now) behind.now) }
{
    if u32_in(order, &rest[8..]) as usize != predicted_len {
        return None;
    }
    Some(&rest[16 + predicted_len..])
}

/// The records in this order that stand whole at the front of the bytes, of a capture that was taken at the interface
/// with this number. No memory is asked for.
pub fn front_records(bytes: &[u8], order: Order, interface: u8) -> Front<'_>
    ensures records { AreRecords order bytes.now (records_of result.records) result.rest.now }
    ensures stop { Stops order result.rest.now result.stop }
    ensures split { IsSplit order bytes.now result }
    ensures marks { All (IsMark order bytes.now) result.marks }
    ensures at { result.records.interface ≡ interface }
{
    let mut rest = bytes;
    let mut count = 0;
    let mut notes = MarkNotes::new(bytes.len());
    // Most records keep as many bytes as the one before. Nothing but speed depends on this guess.
    let mut predicted_len = 0;
    // Where fewer bytes are left, such a record isn't whole, or a place is to be noted.
    let mut enough = 16;
    'records: loop {
        if enough <= rest.len() {
            if let Some(behind) = rest_if_len(rest, order, predicted_len) {
                rest = behind;
                count += 1;
                continue;
            }
        }
        let at = bytes.len() - rest.len();
        notes.note(Mark { count, at }, rest.len());
        let stop = match next_record(rest, order) {
            NextRecord::Whole {
                frame,
                rest: behind,
                ..
            } => {
                predicted_len = frame.len();
                enough = (16 + predicted_len).max(notes.enough);
                rest = behind;
                count += 1;
                continue;
            }
            NextRecord::End => Stop::End,
            NextRecord::Truncated => Stop::Truncated,
            NextRecord::TooLong => Stop::TooLong,
        };
        let records = Records {
            bytes,
            order,
            interface,
            count,
        };
        return Front {
            records,
            marks: notes.marks,
            rest,
            stop,
        };
    }
}
