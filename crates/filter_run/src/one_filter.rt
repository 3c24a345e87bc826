//! Who judges by one policy and hands over each verdict, as the judge of a run.

use crate::judge::Judge;
use packet_view::Packets;
use session_state::Verdict;
use std::alloc::AllocError;

/// Who judges packets by one policy, and hands over each verdict.
#[derive(Drop)]
pub struct OneFilter<J> {
    pub inner: J,
}

impl<J: capture_stream::Judge> Judge<Verdict> for OneFilter<J> {
    ghost use Rattle.filter_run.specs.Filters.{HasSaid};

    ghost became = { λ begun packets said now. HasSaid J.became J.judged begun.inner packets said now.inner };

    fn judge(&mut self, packets: Packets<'_>) -> Result<Vec<Verdict>, AllocError> {
        self.inner.judge(packets)
    }
}
