//! Two observers, who are told the same: first the one, and then the other.

use crate::batch::Batch;
use crate::observer::Observer;
use racl_io::Fault;

impl<V, A: Observer<V>, B: Observer<V>> Observer<V> for (A, B) {
    ghost use Rattle.std.specs.Prelude.{◌⊎◌};
    ghost use Rattle.filter_run.specs.Observers.{IsBeforeLast};

    ghost told = { λ begun batches now. A.told begun.0 batches now.0 × B.told begun.1 batches now.1 };

    ghost cut = { λ begun batches fault now. (A.cut begun.0 batches fault now.0 × IsBeforeLast B.told begun.1 batches now.1) ⊎ (A.told begun.0 batches now.0 × B.cut begun.1 batches fault now.1) };

    fn packets(&mut self, batch: &Batch, said: &[V]) -> Result<(), Fault> {
        match self.0.packets(batch, said) {
            Ok(()) => self.1.packets(batch, said),
            Err(fault) => Err(fault),
        }
    }
}
