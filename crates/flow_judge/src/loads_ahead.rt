//! Loads ahead of the judging of frames, of which nothing is promised.

use crate::judge::Judge;
use bihash_words::Shape;
use flow_dealing::see_plain;
use packet_view::Packet;

// How many buckets a table has at least for which loads are made ahead, as log2: a smaller one stays near anyway.
const FAR: u64 = 13;

impl<A: Shape, B: Shape> Judge<A, B> {
    /// Whether loads ahead save time. It leaves nothing that a clause could name.
    #[inline(always)]
    pub fn is_far(&self) -> bool {
        A::LOG2_BUCKETS >= FAR
    }

    /// Loads the bucket of a plain frame's flow in the table of IPv4, and gives the hash by which its page is loaded. It leaves
    /// nothing that a clause could name.
    #[inline(always)]
    pub fn load_bucket(&self, interface: u8, frame: &[u8]) -> u64 {
        let packet = Packet {
            interface,
            moment: 0,
            micros: 0,
            frame,
        };
        let tables = self.tables.tables();
        let Some(seen) = see_plain::<A, B>(&packet) else {
            return 0;
        };
        tables.four.peek_bucket(seen.hash);
        seen.hash
    }

    /// Loads the page in which a flow with this hash would have its session. It leaves nothing that a clause could name.
    #[inline(always)]
    pub fn load_page(&self, hash: u64) {
        self.tables.tables().four.peek_page(hash);
    }
}
