//! Packets of one capture that came together.

use capture_stream::Found;
use packet_view::{MarkedRecords, Order, Packets, Records};
use racl_io::ReadBuffer;

/// Whole records of one capture that came together.
#[derive(Drop)]
pub struct Batch {
    /// How many packets came before, of all captures.
    pub others: usize,
    /// The number of the interface where the packets were seen.
    pub interface: u8,
    /// The byte order of the capture's numbers.
    pub order: Order,
    /// The number of each of its packets; None where they follow those that came before.
    pub numbers: Option<Vec<u64>>,
    /// The records, and the bytes behind them.
    pub bytes: ReadBuffer,
    pub found: Found,
}

impl Batch {
    ghost use Rattle.std.specs.Prelude.{◌≡◌};
    ghost use Rattle.packet_view.specs.CheckedCaptures.{remaining};
    ghost use Rattle.filter_run.specs.Batches.{IsWhole, batch_facts, packets_in};

    /// Its packets.
    pub fn packets(&self) -> Packets<'_>
        requires { IsWhole self.now }
        ensures { remaining result ≡ packets_in (batch_facts self.now) }
    {
        Packets::Marked(MarkedRecords {
            records: Records {
                bytes: self.bytes.bytes(),
                order: self.order,
                interface: self.interface,
                count: self.found.count,
            },
            marks: &self.found.marks,
        })
    }

    /// The room of its bytes, to be used again.
    pub fn into_room(self) -> ReadBuffer
        ensures { result ≡ self.bytes }
    {
        let Batch { bytes, .. } = self;
        bytes
    }

    /// The bytes of its records.
    pub fn records(&self) -> &[u8]
        requires { IsWhole self.now }
        ensures { result.now ≡ (batch_facts self.now).bytes }
    {
        let bytes = self.bytes.bytes();
        &bytes[..bytes.len() - self.found.behind]
    }
}
