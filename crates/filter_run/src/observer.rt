//! Who is told of the packets of a run.
ghost use Rattle.std.specs.Prelude.{◌≡◌, List, length};
ghost use Rattle.racl_io.specs.declared.fault.Fault.{Fault};
ghost use Rattle.filter_run.specs.Batches.{IsWhole, JudgedBatch, batch_facts, packets_in};
ghost use Rattle.filter_run.specs.Observers.{HasHeard, MayHear};

use crate::batch::Batch;
use racl_io::Fault;

/// Who is told of packets and of what was said of them, one batch after the other.
pub trait Observer<V> {
    /// Whether the first, after it was told of these batches, which are all so far, is the second.
    ghost told: { Self → List (JudgedBatch V) → Self → Type 0 };

    /// Whether the first was told of all these batches but the last, failed so within the last, and is the second then.
    ghost cut: { Self → List (JudgedBatch V) → Fault → Self → Type 0 };

    /// It is told of the next batch, and of what was said of its packets.
    fn packets(&mut self, batch: &Batch, said: &[V]) -> Result<(), Fault>
        requires may { MayHear told self.old (length said.now) }
        requires whole { IsWhole batch.now }
        requires each { length said.now ≡ length (packets_in (batch_facts batch.now)) }
        ensures { HasHeard told cut self.old self.new (record { batch = batch_facts batch.now; said = said.now }) result };
}
