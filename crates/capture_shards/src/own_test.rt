//! Which packets are of a shard.
ghost use Rattle.std.specs.Prelude.{◌≡◌, ◌≤◌};
ghost use Rattle.packet_view.specs.Captures.{packet_facts};
ghost use Rattle.bihash_words.specs.Hash.{hash_of};
ghost use Rattle.flow_filter.specs.OneThread.{Layout};
ghost use Rattle.flow_filter.specs.Updates.{words_of};
ghost use Rattle.capture_shards.specs.Shards.{IsOver, IsOwnOf};
ghost use Rattle.capture_shards.specs.declared.shard.Shard.{Shard};
ghost use Rattle.capture_shards.specs.inner.OwnTests.{bucket_in, flow_seen, own_of, IsHashed};

use crate::shard::Shard;
use bihash_words::{ShapeV4, ShapeV6};
use flow_dealing::{HashedFlow, see_other, see_plain};
use packet_view::Packet;
use session_state::FlowKey;

// The flow of a packet, and the hash of its key.
#[inline(always)]
fn hashed_flow(packet: &Packet<'_>) -> HashedFlow
    ensures flow { result.flow ≡ flow_seen (packet_facts packet.now) }
    ensures hash { IsHashed result }
{
    match see_plain::<ShapeV4, ShapeV6>(packet) {
        Some(sighting) => sighting.hashed_flow(),
        None => see_other::<ShapeV4, ShapeV6>(*packet).hashed,
    }
}

// The bucket of a flow's key, which has this hash.
#[inline(always)]
fn bucket_of(shard: &Shard, key: &FlowKey, hash: u64) -> u64
    requires { hash ≡ hash_of (words_of key.now) }
    ensures { result ≡ bucket_in shard.now key.now }
{
    match key {
        FlowKey::Four(_) => hash % (1u64 << shard.log2_four),
        FlowKey::Six(_) => hash % (1u64 << shard.log2_six),
    }
}

/// Whether the packet with this number, from 1, is of the shard.
#[inline(always)]
pub fn is_own(shard: &Shard, number: u64, packet: &Packet<'_>) -> bool
    requires { 1 ≤ number }
    ensures { result ≡ own_of shard.now number (packet_facts packet.now) }
{
    let hashed = hashed_flow(packet);
    let place = match &hashed.flow {
        Some(flow) => bucket_of(shard, &flow.key, hashed.hash),
        None => number - 1,
    };
    place % shard.count + 1 == shard.number
}

/// The packets that are found to be of a shard are those that fall to the shard.
pub fn each_shard_has_its_packets()
    ensures { (l : Layout) (shard : Shard) → IsOver l shard → IsOwnOf l shard.count shard.number (own_of shard) }
{}
