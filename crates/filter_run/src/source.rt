//! What gives the packets of a run.
ghost use Rattle.std.specs.Prelude.{List, MatchResult};
ghost use Rattle.racl_io.specs.declared.totals_and_truncation.Captured.{Captured};
ghost use Rattle.capture_stream.specs.declared.arrivals.FaultAt.{FaultAt};
ghost use Rattle.filter_run.specs.Batches.{BatchFacts};
ghost use Rattle.filter_run.specs.Sources.{HasFailed, HasStepped, MayGive};

use crate::batch::Batch;
use capture_stream::FaultAt;
use racl_io::{Captured, ReadBuffer};

/// What a source has next.
#[derive(Drop)]
pub enum Step {
    /// Some packets, or none as yet.
    Batch(Batch),
    /// All packets came. This is told of the captures.
    End(Vec<Captured>),
}

/// What gives the packets of a run: of one capture, or of several as they come.
pub trait CaptureSource {
    /// Whether the first, after it gave these batches, which are all so far, is the second.
    ghost gave: { Self → List BatchFacts → Self → Type 0 };

    /// Whether the first gave these batches, which are all, of captures of which this is told, and is the second then.
    ghost over: { Self → List BatchFacts → List Captured → Self → Type 0 };

    /// Whether the first gave these batches, failed so, and is the second then.
    ghost failed: { Self → List BatchFacts → FaultAt → Self → Type 0 };

    /// Waits for the next packets. `room` is used again for their bytes.
    fn next(&mut self, room: ReadBuffer) -> Result<Step, FaultAt>
        requires { MayGive gave self.old }
        ensures { MatchResult result (HasStepped gave over self.old self.new) (HasFailed gave failed self.old self.new) };
}
