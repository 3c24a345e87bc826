//! The whole records at the front of some bytes of a capture.
ghost use Rattle.capture_stream.specs.Found.{HaveFound};

use packet_view::{Front, MARKS, Mark, Order, Stop, front_records};

/// The whole records at the front of some bytes.
#[derive(Clone, Copy)]
pub struct Found {
    /// How many they are.
    pub count: usize,
    /// How many bytes are behind them.
    pub behind: usize,
    /// Why they end there.
    pub stop: Stop,
    /// Places where some of them begin.
    pub marks: [Mark; MARKS],
}

/// Finds the records in this order that stand whole at the front of these bytes.
pub fn find_records(bytes: &[u8], order: Order) -> Found
    ensures { HaveFound order bytes.now result }
{
    let Front {
        records,
        marks,
        rest,
        stop,
    } = front_records(bytes, order, 0);
    Found {
        count: records.count,
        behind: rest.len(),
        stop,
        marks,
    }
}
