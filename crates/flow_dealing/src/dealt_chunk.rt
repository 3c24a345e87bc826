//! Packets that follow each other, once it is known who judges each of them.
ghost use Rattle.std.specs.Prelude.{◌≡◌, ◌<◌, ◌^◌, IfOk, length};
ghost use Rattle.packet_view.specs.Captures.{packet_facts};
ghost use Rattle.flow_filter.specs.OneThread.{Layout};
ghost use Rattle.flow_dealing.specs.inner.OwnPackets.{HasHanded, HasHandedFound, IsEmptyChunk, IsEmptyRoom};

use crate::plain_sighting::PlainSighting;
use packet_view::Packet;
use std::alloc::{AllocError, Global};

/// What dealing found of a packet, and its place in its chunk, from 0.
#[derive(Clone, Copy)]
pub enum DealtPacket {
    /// That its frame is plain; its place in the chunk stands first.
    Plain(u32, PlainSighting),
    /// That its frame needn't be plain: its place in the chunk, and that among the chunk's others, from 0.
    Other(usize, usize),
}

/// Packets that follow each other, and who judges them.
#[derive(Drop)]
pub struct DealtChunk<'a> {
    /// The worker that judges each packet, in their order.
    pub workers: Vec<u8>,
    /// For each worker the packets that it judges, in their order.
    pub own: Vec<Vec<DealtPacket>>,
    /// The others among them, in their order. What is seen of them isn't kept: it takes so much room that its first touch costs
    /// more than to see it again.
    pub others: Vec<Packet<'a>>,
}

/// The lists of a chunk without their packets. Whoever deals again hands it on: memory that was given back costs a first touch
/// again, which takes longer than to deal.
#[derive(Drop)]
pub struct DealtRoom {
    pub workers: Vec<u8>,
    pub own: Vec<Vec<DealtPacket>>,
}

impl DealtRoom {
    // The lists of so many workers, which have room for so many packets. A worker may get a quarter more than its share
    // before its list grows.
    fn new(alloc: Global, workers: usize, packets: usize) -> Result<DealtRoom, AllocError>
        requires { 0 < workers }
        ensures { IfOk result (IsEmptyRoom workers) }
    {
        let share = packets / workers;
        let room = share.saturating_add(share / 4);
        let mut own = Vec::with_capacity(alloc, workers)?;
        for _ in 0..workers {
            own.push(Vec::with_capacity(alloc, room)?)?;
        }
        Ok(DealtRoom {
            workers: Vec::with_capacity(alloc, packets)?,
            own,
        })
    }

    // The same lists, in which nothing stands.
    fn cleared(self) -> DealtRoom
        ensures { IsEmptyRoom (length self.own.items) result }
    {
        let DealtRoom {
            mut workers,
            mut own,
        } = self;
        workers.clear();
        for worker in 0..own.len() {
            own[worker].clear();
        }
        DealtRoom { workers, own }
    }

    // Lists of so many workers: these, where they are as many, else new ones with room for so many packets.
    fn emptied(
        kept: Option<DealtRoom>,
        alloc: Global,
        workers: usize,
        packets: usize,
    ) -> Result<DealtRoom, AllocError>
        requires { 0 < workers }
        ensures { IfOk result (IsEmptyRoom workers) }
    {
        if let Some(room) = kept {
            if room.own.len() == workers {
                return Ok(room.cleared());
            }
        }
        DealtRoom::new(alloc, workers, packets)
    }
}

/// No packet yet, and lists for so many workers: those that were kept, or new ones with room for so many packets.
pub fn empty_chunk<'a>(
    alloc: Global,
    kept: Option<DealtRoom>,
    workers: usize,
    packets: usize,
) -> Result<DealtChunk<'a>, AllocError>
    requires { 0 < workers }
    ensures { IfOk result (IsEmptyChunk workers) }
{
    let DealtRoom { workers, own } = DealtRoom::emptied(kept, alloc, workers, packets)?;
    Ok(DealtChunk {
        workers,
        own,
        others: Vec::new(alloc),
    })
}

impl<'a> DealtChunk<'a> {
    /// The chunk's lists.
    pub fn room(self) -> DealtRoom
        ensures workers { result.workers ≡ self.entry.workers }
        ensures own { result.own ≡ self.entry.own }
    {
        DealtRoom {
            workers: self.workers,
            own: self.own,
        }
    }

    /// The next packet, of which this was found, is this worker's.
    #[inline(always)]
    pub(crate) fn hand(&mut self, worker: usize, found: DealtPacket) -> Result<(), AllocError>
        requires few { worker < 2 ^ 8 }
        requires one { worker < length self.old.own.items }
        ensures { IfOk result (λ _. HasHandedFound self.old worker found self.new) }
    {
        self.workers.push(worker as u8)?;
        self.own[worker].push(found)?;
        Ok(())
    }

    /// The next packet is this worker's, and one of the others.
    pub(crate) fn hand_other(&mut self, worker: usize, packet: Packet<'a>) -> Result<(), AllocError>
        requires few { worker < 2 ^ 8 }
        requires one { worker < length self.old.own.items }
        ensures { IfOk result (λ _. (l : Layout) → HasHanded l self.old worker (packet_facts packet.entry) self.new) }
    {
        let found = DealtPacket::Other(self.workers.len(), self.others.len());
        self.others.push(packet)?;
        self.hand(worker, found)
    }
}
