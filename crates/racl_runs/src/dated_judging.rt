//! Those who judge packets, and the latest second of these.
ghost use Rattle.std.specs.Prelude.{◌≡◌, true, max};
ghost use Rattle.packet_view.specs.CheckedCaptures.{remaining};
ghost use Rattle.racl_views.specs.Hits;

use capture_stream::Judge;
use flow_workers::Verdict;
use packet_view::Packets;
use racl_views::latest_second;
use std::alloc::AllocError;

/// Those who judge packets, and the latest second of any of these, where it is noted.
#[derive(Drop)]
pub struct Dated<J> {
    pub inner: J,
    /// Whether it is noted.
    pub noted: bool,
    /// The latest second; before the first packet 0.
    pub latest: u32,
}

/// The latest second of any packet, among these and those before, of which this is the latest, where it is asked for.
pub fn latest_where(asked: bool, before: u32, packets: Packets<'_>) -> u32
    ensures { asked ≡ true → result ≡ max before (Hits.latest_second (remaining packets.entry)) }
{
    if asked {
        latest_second(before, packets)
    } else {
        before
    }
}

impl<J: Judge> Judge for Dated<J> {
    ghost use Rattle.racl_runs.specs.inner.DatedPackets.{HasDated};

    ghost became = { λ begun packets said now. HasDated J.became begun packets said now };

    ghost judged = { λ begun packets said. J.judged begun.inner packets said };

    // They judge these packets, whose seconds are noted.
    fn judge(&mut self, packets: Packets<'_>) -> Result<Vec<Verdict>, AllocError> {
        let said = self.inner.judge(packets)?;
        self.latest = latest_where(self.noted, self.latest, packets);
        Ok(said)
    }
}
