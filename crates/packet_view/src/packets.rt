//! Packets that are taken one by one.
ghost use Rattle.std.specs.Prelude.{◌≡◌, ◌≤◌, ◌++◌, [], drop, length, map, take};
ghost use Rattle.packet_view.specs.Captures.{Takes, packet_facts};
ghost use Rattle.packet_view.specs.CheckedCaptures.{remaining};

use crate::packet::Packet;
use crate::packets_of_records::{BURST, Records};
use crate::record_marks::MarkedRecords;

/// Packets that are taken one by one, in their order. A copy has a front of its own.
#[derive(Clone, Copy)]
pub enum Packets<'a> {
    /// From a list.
    Slice(&'a [Packet<'a>]),
    /// From a capture's records, where they stand.
    Records(Records<'a>),
    /// From a capture's records, some of which are reached without the ones before them.
    Marked(MarkedRecords<'a>),
}

impl<'a> Packets<'a> {
    /// How many packets are left.
    pub fn count(&self) -> usize
        ensures { result ≡ length (remaining self.now) }
    {
        match self {
            Packets::Slice(packets) => packets.len(),
            Packets::Records(records) => records.count(),
            Packets::Marked(marked) => marked.records.count(),
        }
    }

    /// The packets behind the first ones, of which there are so many.
    pub fn behind(self, count: usize) -> Packets<'a>
        ensures { remaining result ≡ drop count (remaining self.entry) }
    {
        let (mut rest, before) = match self {
            Packets::Marked(marked) => {
                let (records, before) = marked.from_last_before(count);
                (Packets::Records(records), before)
            }
            Packets::Slice(_) | Packets::Records(_) => (self, 0),
        };
        for _at in before..count {
            let Some(_) = rest.next() else {
                break;
            };
        }
        rest
    }

    /// Takes the first packet that is left.
    #[inline]
    pub fn next(&mut self) -> Option<Packet<'a>>
        ensures { Takes (remaining self.old) result (remaining self.new) }
    {
        match *self {
            Packets::Slice(packets) => {
                if packets.is_empty() {
                    return None;
                }
                *self = Packets::Slice(&packets[1..]);
                Some(packets[0])
            }
            Packets::Records(mut records) | Packets::Marked(MarkedRecords { mut records, .. }) => {
                let packet = records.next();
                *self = Packets::Records(records);
                packet
            }
        }
    }

    /// Takes the first packets that are left, and puts them into these places from the first on. It answers how many
    /// they are: none only where none is left.
    pub(crate) fn take_into(&mut self, places: &mut [Packet<'a>; BURST]) -> usize
        ensures fits { (result ≤ 64) × (length places.new ≡ 64) }
        ensures taken { map packet_facts (take result places.new) ++ remaining self.new ≡ remaining self.old }
        ensures none { result ≡ 0 → remaining self.old ≡ [] }
    {
        match *self {
            Packets::Slice(packets) => {
                let count = packets.len().min(BURST);
                places[..count].copy_from_slice(&packets[..count]);
                *self = Packets::Slice(&packets[count..]);
                count
            }
            Packets::Records(mut records) | Packets::Marked(MarkedRecords { mut records, .. }) => {
                let count = records.take_into(places);
                *self = Packets::Records(records);
                count
            }
        }
    }
}
