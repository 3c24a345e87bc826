//! Where a packet's session would be: by this its flow is dealt, the same for both directions.
ghost use Rattle.std.specs.Prelude.{◌≡◌, Option, Some};
ghost use Rattle.bihash_words.specs.Sizes.{IsSound, sizes_of};
ghost use Rattle.packet_view.specs.Frames.{FrameFacts, IsFrame};
ghost use Rattle.packet_view.specs.declared.tuple.Mac.{Mac};
ghost use Rattle.flow_filter.specs.OneThread.{layout_of};
ghost use Rattle.flow_dealing.specs.Dealings.{flow_of_frame, hash_in};
ghost use Rattle.flow_dealing.specs.Dealt.{AreShapes};
ghost use Rattle.flow_judge.specs.FlowBuckets.{IsBucketOf, IsBucketOfFlow};

use bihash_words::Shape;
use flow_dealing::see_other;
use packet_view::{Family, Packet};
use session_state::FlowKey;

/// The bucket of a flow in its family's table, and the hash of which the bucket's number is the lowest bits.
#[derive(Clone, Copy, Debug, PartialEq, Eq)]
pub struct FlowBucket {
    pub family: Family,
    pub hash: u64,
    pub bucket: u64,
}

// The bucket of the flow with this key, which has this hash.
fn bucket_of_hash<A: Shape, B: Shape>(key: &FlowKey, hash: u64) -> FlowBucket
    requires four { IsSound (sizes_of ⟦<A as Shape>⟧) }
    requires six { IsSound (sizes_of ⟦<B as Shape>⟧) }
    requires hash { hash ≡ hash_in (layout_of ⟦<A as Shape>⟧ ⟦<B as Shape>⟧) key.now }
    ensures { IsBucketOf (layout_of ⟦<A as Shape>⟧ ⟦<B as Shape>⟧) key.now result }
{
    match key {
        FlowKey::Four(_) => FlowBucket {
            family: Family::V4,
            hash,
            bucket: hash % (1u64 << A::LOG2_BUCKETS),
        },
        FlowKey::Six(_) => FlowBucket {
            family: Family::V6,
            hash,
            bucket: hash % (1u64 << B::LOG2_BUCKETS),
        },
    }
}

/// The bucket of a frame's flow, whatever the own address of the interface where it is seen. `None`: it takes no part in
/// sessions.
pub fn flow_bucket<A: Shape, B: Shape>(interface: u8, frame: &[u8]) -> Option<FlowBucket>
    requires { AreShapes ⟦<A as Shape>⟧ ⟦<B as Shape>⟧ }
    ensures { (own : Option Mac) (seen : FrameFacts) → IsFrame frame.now (record { number = interface; own = own }) seen
        → IsBucketOfFlow (layout_of ⟦<A as Shape>⟧ ⟦<B as Shape>⟧) (flow_of_frame seen) result }
{
    let seen = see_other::<A, B>(Packet {
        interface,
        moment: 0,
        micros: 0,
        frame,
    });
    let hash = seen.hashed.hash;
    match &seen.hashed.flow {
        Some(flow) => Some(bucket_of_hash::<A, B>(&flow.key, hash)),
        None => None,
    }
}
