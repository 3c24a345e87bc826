//! The latest second of packets.
ghost use Rattle.std.specs.Prelude.{◌≡◌, max, true};
ghost use Rattle.packet_view.specs.CheckedCaptures.{remaining};
ghost use Rattle.capture_shards.specs.OwnRecords.{latest_of};

use packet_view::Packets;

/// The latest second of any packet, among these and those before, of which this is the latest, where it is asked for.
pub fn latest_where(asked: bool, before: u32, packets: Packets<'_>) -> u32
    ensures { asked ≡ true → result ≡ max before (latest_of (remaining packets.entry)) }
{
    let mut latest = before;
    let mut left = packets;
    if !asked {
        return latest;
    }
    'packets: while let Some(packet) = left.next() {
        latest = latest.max(packet.moment);
    }
    latest
}
