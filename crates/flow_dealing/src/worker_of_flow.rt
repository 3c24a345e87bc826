//! Which worker a packet is dealt to.
ghost use Rattle.std.specs.Prelude.{◌≡◌, ◌<◌, ◌%◌};
ghost use Rattle.bihash_words.specs.Sizes.{IsSound, sizes_of};
ghost use Rattle.flow_filter.specs.OneThread.{home_of, layout_of};
ghost use Rattle.flow_dealing.specs.Dealings;
ghost use Rattle.flow_dealing.specs.Dealings.{hash_in};
ghost use Rattle.flow_dealing.specs.HashedFlows.{IsHashed};

use crate::hashed_flow::HashedFlow;
use bihash_words::Shape;
use session_state::FlowKey;

/// How packets are dealt to workers. Each worker judges its packets in the order of the file.
#[derive(Clone, Copy)]
pub enum Dealing {
    /// In turn: the packet with number p, from 0, goes to worker p modulo the number of workers.
    Round,
    /// By bucket: a packet of a flow goes to worker b modulo the number of workers, where b is the bucket of its
    /// flow's key in the table of its family; every other packet goes to worker 0.
    Bucket,
}

// The bucket by which the packets of a flow get their worker, in the table of the flow's family.
#[inline(always)]
fn worker_bucket<A: Shape, B: Shape>(key: &FlowKey, hash: u64) -> u64
    requires four { IsSound (sizes_of ⟦<A as Shape>⟧) }
    requires six { IsSound (sizes_of ⟦<B as Shape>⟧) }
    requires hash { hash ≡ hash_in (layout_of ⟦<A as Shape>⟧ ⟦<B as Shape>⟧) key.now }
    ensures { result ≡ (home_of (layout_of ⟦<A as Shape>⟧ ⟦<B as Shape>⟧) key.now).bucket }
{
    match key {
        FlowKey::Four(_) => hash % (1u64 << A::LOG2_BUCKETS),
        FlowKey::Six(_) => hash % (1u64 << B::LOG2_BUCKETS),
    }
}

// The worker of a flow's bucket. By a power of two that the compiler knows this takes no division, and workers are
// often so many.
#[inline(always)]
fn remainder(bucket: u64, workers: u64) -> u64
    requires some { 0 < workers }
    ensures is { result ≡ bucket % workers }
    ensures less { result < workers }
{
    match workers {
        2 => bucket % 2,
        4 => bucket % 4,
        8 => bucket % 8,
        16 => bucket % 16,
        _ => bucket % workers,
    }
}

/// The worker that a packet goes to, by its number, from 0, and its flow.
#[inline(always)]
pub fn worker_of<A: Shape, B: Shape>(
    dealing: Dealing,
    workers: usize,
    number: usize,
    hashed: &HashedFlow,
) -> usize
    requires four { IsSound (sizes_of ⟦<A as Shape>⟧) }
    requires six { IsSound (sizes_of ⟦<B as Shape>⟧) }
    requires hashed { IsHashed (layout_of ⟦<A as Shape>⟧ ⟦<B as Shape>⟧) hashed.now }
    requires some { 0 < workers }
    ensures worker { result ≡ Dealings.worker_of
        (record { layout = layout_of ⟦<A as Shape>⟧ ⟦<B as Shape>⟧; dealing = dealing; workers = workers }) number hashed.now.flow }
    ensures one { result < workers }
{
    match (dealing, &hashed.flow) {
        (Dealing::Round, _) => number % workers,
        (Dealing::Bucket, None) => 0,
        (Dealing::Bucket, Some(flow)) => remainder(
            worker_bucket::<A, B>(&flow.key, hashed.hash),
            workers as u64,
        ) as usize,
    }
}
