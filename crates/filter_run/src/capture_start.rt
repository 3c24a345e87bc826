//! Where the records of a capture begin.

use packet_view::Order;
use std::alloc::Global;

/// How many bytes the header of a capture has.
pub const HEADER_BYTES: usize = 24;

/// Where the records of a capture begin.
#[derive(Drop)]
pub struct CaptureStart {
    /// The byte order of its numbers.
    pub order: Order,
    /// The bytes behind its header that were read before.
    pub front: Vec<u8>,
    /// Where the capture is part of an input, how many bytes of the input stand before these. Such an input has at most
    /// MOST_BYTES, and a record that is too long is a fault once all of it was read.
    pub input: Option<usize>,
}

impl CaptureStart {
    ghost use Rattle.std.specs.Prelude.{◌≡◌};
    ghost use Rattle.filter_run.specs.Starts.{behind_header, start_facts};

    /// Behind a header, where no more was read.
    pub fn behind_header(alloc: Global, order: Order) -> CaptureStart
        ensures { start_facts result ≡ behind_header order }
    {
        CaptureStart {
            order,
            front: Vec::new(alloc),
            input: None,
        }
    }
}
