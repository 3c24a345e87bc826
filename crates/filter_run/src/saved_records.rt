//! An observer that gives records to what saves them.
ghost use Rattle.std.specs.Prelude.{◌≡◌, ◌≢◌, false, true};

use crate::batch::Batch;
use crate::observer::Observer;
use capture_stream::Saver;
use packet_view::Order;
use racl_io::Fault;
use session_state::Verdict;

/// What saves records of a capture, whose numbers have this byte order. Those of a capture in another order aren't saved.
#[derive(Drop)]
pub struct SavedRecords<'k, K> {
    pub saver: &'k mut K,
    pub order: Order,
}

// Whether they are the same.
fn are_same(one: Order, other: Order) -> bool
    ensures same { result ≡ true → one ≡ other }
    ensures differ { result ≡ false → one ≢ other }
{
    one == other
}

impl<'k, K: Saver> Observer<Verdict> for SavedRecords<'k, K> {
    ghost use Rattle.filter_run.specs.Saving.{HasCutSaves, HasSavedSome};

    ghost told = { λ begun batches now. HasSavedSome K.saved K.failures begun batches now };

    ghost cut = { λ begun batches fault now. HasCutSaves K.failures begun fault now };

    fn packets(&mut self, batch: &Batch, said: &[Verdict]) -> Result<(), Fault> {
        if !are_same(batch.order, self.order) {
            return Ok(());
        }
        self.saver.save(batch.order, batch.records(), said)
    }
}
