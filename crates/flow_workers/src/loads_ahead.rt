//! Loads ahead of the judging of packets that follow each other: of the buckets of all, then of the pages of all.
ghost use Rattle.flow_filter.specs.OneThread.{IsFlowLayout, layout_of};

use crate::session_tables::Tables;
use bihash_words::Shape;
use flow_dealing::see_plain;
use packet_view::Packet;

// For how many packets loads are made before the first of them is judged.
const AHEAD: usize = 16;

// How many buckets a table has at least for which loads are made ahead, as log2: a smaller one stays near anyway.
const FAR: u64 = 13;

// Loads what judging these packets will load of the table of IPv4, where their frames are plain.
#[inline(never)]
fn load_ahead<A: Shape, B: Shape>(tables: &Tables<A, B>, packets: &[Packet<'_>])
    requires { IsFlowLayout (layout_of ⟦<A as Shape>⟧ ⟦<B as Shape>⟧) }
{
    let mut hashes = [0; AHEAD];
    let count = packets.len().min(AHEAD);
    for i in 0..count {
        if let Some(seen) = see_plain::<A, B>(&packets[i]) {
            hashes[i] = seen.hash;
            tables.four.peek_bucket(seen.hash);
        }
    }
    for hash in &hashes[..count] {
        tables.four.peek_page(*hash);
    }
}

/// Loads ahead for the packets behind the one at this place, each time that enough of them were judged. It leaves nothing that a
/// clause could name.
#[inline(always)]
pub fn load_ahead_at<A: Shape, B: Shape>(at: usize, tables: &Tables<A, B>, packets: &[Packet<'_>])
    requires { IsFlowLayout (layout_of ⟦<A as Shape>⟧ ⟦<B as Shape>⟧) }
{
    if A::LOG2_BUCKETS >= FAR && at % AHEAD == 0 {
        load_ahead::<A, B>(tables, packets);
    }
}
