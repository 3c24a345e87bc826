//! By what the frames of a flow are dealt, and to whom.
ghost use Rattle.packet_view.specs.Frames.{FrameFacts, IsFrame};
ghost use Rattle.packet_view.specs.declared.tuple.Mac.{Mac};
ghost use Rattle.std.specs.Prelude.{◌≡◌, Option};
ghost use Rattle.flow_filter.specs.OneThread.{layout_of};
ghost use Rattle.flow_dealing.specs.Dealings.{flow_of_frame};
ghost use Rattle.racl_c.specs.FlowHashes.{IsFlowTold, IsOfBucket};
ghost use Rattle.racl_c.specs.FlowHashes;

use bihash_words::{LargeV4, LargeV6, Shape, ShapeV4, ShapeV6, flow_shapes_are_sound};
use flow_judge::flow_bucket;
use packet_view::Family;

/// The family of a frame's flow, 4 or 6, and the hash of the flow's key; both are 0 where the frame takes no part in sessions.
#[repr(C)]
#[derive(Clone, Copy, Debug, PartialEq, Eq)]
pub struct Flow {
    pub family: u32,
    pub hash: u64,
}

/// By what a frame's flow is dealt that was seen at this interface.
#[unsafe(no_mangle)]
pub extern "C" fn racl_flow_of(interface: u8, frame: &[u8]) -> Flow
    ensures standard { (own : Option Mac) (seen : FrameFacts) → IsFrame frame.now (record { number = interface; own = own }) seen
        → IsFlowTold (layout_of ⟦<ShapeV4 as Shape>⟧ ⟦<ShapeV6 as Shape>⟧) (flow_of_frame seen) result }
    ensures large { (own : Option Mac) (seen : FrameFacts) → IsFrame frame.now (record { number = interface; own = own }) seen
        → IsFlowTold (layout_of ⟦<LargeV4 as Shape>⟧ ⟦<LargeV6 as Shape>⟧) (flow_of_frame seen) result }
{
    flow_shapes_are_sound();
    match flow_bucket::<ShapeV4, ShapeV6>(interface, frame) {
        Some(found) => Flow {
            family: match found.family {
                Family::V4 => 4,
                Family::V6 => 6,
            },
            hash: found.hash,
        },
        None => Flow { family: 0, hash: 0 },
    }
}

// The worker of a bucket, by what it is in standard tables.
fn worker_of_bucket(family: u32, bucket: u64, workers: u32) -> u32
    ensures { result ≡ FlowHashes.worker_of_bucket family bucket workers }
{
    if workers == 0 {
        return 0;
    }
    let standard = if family == 6 {
        bucket % 1024
    } else {
        bucket % 4096
    };
    (standard % u64::from(workers)) as u32
}

/// Of so many workers the one to whom a bucket of this family's table is dealt.
#[unsafe(no_mangle)]
pub extern "C" fn racl_worker_of_bucket(family: u32, bucket: u64, workers: u32) -> u32
    ensures { result ≡ FlowHashes.worker_of_bucket family bucket workers }
{
    worker_of_bucket(family, bucket, workers)
}

/// Of so many workers the one to whom a flow's frames are dealt.
#[unsafe(no_mangle)]
pub extern "C" fn racl_worker_of(flow: Flow, workers: u32) -> u32
    ensures is { result ≡ FlowHashes.worker_of_bucket flow.family flow.hash workers }
    ensures standard { IsOfBucket (layout_of ⟦<ShapeV4 as Shape>⟧ ⟦<ShapeV6 as Shape>⟧) flow workers result }
    ensures large { IsOfBucket (layout_of ⟦<LargeV4 as Shape>⟧ ⟦<LargeV6 as Shape>⟧) flow workers result }
{
    worker_of_bucket(flow.family, flow.hash, workers)
}
