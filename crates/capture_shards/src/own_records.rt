//! The records of a shard's own packets among those of a capture.
ghost use Rattle.std.specs.Prelude.{◌≡◌, ◌+◌, ◌<◌, ◌^◌, IfNone, IfOk, IfSome, length};
ghost use Rattle.packet_view.specs.Captures.{packet_facts};
ghost use Rattle.capture_shards.specs.OwnRecords.{AreOfOwn, HasNoRecord, own_facts};
ghost use Rattle.capture_shards.specs.inner.FrontRecords.{HasFrontRecord};
ghost use Rattle.capture_shards.specs.inner.OwnTests.{own_of};

use crate::own_test::is_own;
use crate::shard::Shard;
use packet_view::{NextRecord, Order, Packet, next_record};
use std::alloc::{AllocError, Global};

/// The records of a shard's own packets among others, and what is known of all of these.
#[derive(Drop)]
pub struct OwnRecords {
    /// The records, as they stand there, one behind the other.
    pub bytes: Vec<u8>,
    /// The number of the packet of each among all packets.
    pub numbers: Vec<u64>,
    /// How many records there are among which they stand.
    pub all: u64,
    /// The latest second of any of these; 0 where there are none.
    pub latest: u32,
}

// A whole record at the front of others.
#[derive(Clone, Copy)]
struct FrontRecord<'a> {
    bytes: &'a [u8],
    packet: Packet<'a>,
    // Those behind it.
    rest: &'a [u8],
}

// The whole record at the front; None where there is none.
#[inline(always)]
fn front_record(bytes: &[u8], order: Order) -> Option<FrontRecord<'_>>
    ensures some { IfSome result (λ front. HasFrontRecord order bytes.now front.bytes.now (packet_facts front.packet) front.rest.now) }
    ensures none { IfNone result (HasNoRecord order bytes.now) }
{
    match next_record(bytes, order) {
        NextRecord::Whole {
            moment,
            micros,
            frame,
            ..
        } => {
            let (piece, rest) = bytes.split_at(16 + frame.len());
            Some(FrontRecord {
                bytes: piece,
                packet: Packet {
                    interface: 0,
                    moment,
                    micros,
                    frame,
                },
                rest,
            })
        }
        NextRecord::End | NextRecord::Truncated | NextRecord::TooLong => None,
    }
}

/// The whole records, at the front of these, of the shard's own packets, as they stand there, and the number of each of these
/// packets among all, of which so many others stand before them. Each packet is looked at once. An error says that memory was
/// refused.
pub fn records_of_shard(
    alloc: Global,
    shard: &Shard,
    others: u64,
    records: &[u8],
    order: Order,
) -> Result<OwnRecords, AllocError>
    requires { others + length records.now < 2 ^ 64 }
    ensures { IfOk result (λ own. AreOfOwn (own_of shard.now) (others + 1) order records.now (own_facts own)) }
{
    let mut bytes = Vec::new(alloc);
    let mut numbers = Vec::new(alloc);
    let mut number = others;
    let mut latest = 0;
    let mut rest = records;
    'records: while let Some(front) = front_record(rest, order) {
        rest = front.rest;
        number += 1;
        latest = latest.max(front.packet.moment);
        if !is_own(shard, number, &front.packet) {
            continue;
        }
        bytes.extend_from_slice(front.bytes)?;
        numbers.push(number)?;
    }
    Ok(OwnRecords {
        bytes,
        numbers,
        all: number - others,
        latest,
    })
}
