//! The records of a capture, taken one by one where they stand.
ghost use Rattle.std.specs.Prelude.{◌≡◌, ◌≤◌, length, drop};
ghost use Rattle.packet_view.specs.Captures.{kept_length, packet_at, packet_facts};
ghost use Rattle.packet_view.specs.RecordLists.{bytes_of, front_record, record_length};

use crate::capture::{Order, micros_in, u32_in};
use crate::packet::Packet;

// How many bytes of its frame the record keeps whose packet is taken next.
#[inline(always)]
fn kept_in(bytes: &[u8], order: Order) -> usize
    requires { record_length order bytes.now ≤ length bytes.now }
    ensures { result ≡ kept_length order bytes.now }
{
    u32_in(order, &bytes[8..]) as usize
}

// The packet that is taken of the record at the front, which is whole and keeps so many bytes, and the bytes after it.
#[inline(always)]
fn front_of<'a>(bytes: &'a [u8], order: Order, interface: u8, kept: usize) -> (Packet<'a>, &'a [u8])
    requires whole { record_length order bytes.now ≤ length bytes.now }
    requires kept { kept ≡ kept_length order bytes.now }
    ensures packet { packet_facts result.0 ≡ packet_at interface (front_record order bytes.now) }
    ensures behind { result.1.now ≡ drop (record_length order bytes.now) bytes.now }
{
    let packet = Packet {
        interface,
        moment: u32_in(order, bytes),
        micros: micros_in(order, bytes),
        frame: &bytes[16..16 + kept],
    };
    (packet, &bytes[16 + kept..])
}

/// How many packets are taken at once.
pub(crate) const BURST: usize = 64;

/// Records that are known to be whole, and the bytes after them.
#[derive(Clone, Copy)]
pub struct Records<'a> {
    pub bytes: &'a [u8],
    pub order: Order,
    /// The number of the interface where the capture was taken.
    pub interface: u8,
    /// How many records are left.
    pub count: usize,
    pub ghost whole: { bytes_of order count bytes.now ≤ length bytes.now },
}

impl<'a> Records<'a> {
    ghost use Rattle.std.specs.Prelude.{◌≡◌, ◌≢◌, ◌≤◌, ◌++◌, ◌∷◌, [], IfSome, IfNone, length, map, take};
    ghost use Rattle.packet_view.specs.Captures.{Takes, kept_length, packet_facts};
    ghost use Rattle.packet_view.specs.CheckedCaptures.{packets_of};

    /// How many packets of records are left.
    #[inline]
    pub fn count(&self) -> usize
        ensures { result ≡ length (packets_of self.now) }
    {
        self.count
    }

    /// Takes the packet of the first record that is left.
    #[inline]
    pub fn next(&mut self) -> Option<Packet<'a>>
        ensures { Takes (packets_of self.old) result (packets_of self.new) }
    {
        if self.count == 0 {
            return None;
        }
        let kept = kept_in(self.bytes, self.order);
        Some(self.take(kept))
    }

    // Takes the packet of the first record that is left, where that keeps so many bytes of its frame. They are found
    // from that number and not from the one that was read: so a walk goes on before the read is done.
    #[inline(always)]
    fn next_if_len(&mut self, predicted_len: usize) -> Option<Packet<'a>>
        ensures taken { IfSome result (λ packet. packets_of self.old ≡ packet_facts packet ∷ packets_of self.new) }
        ensures none { IfNone result (self.new ≡ self.old) }
    {
        if self.count == 0 || kept_in(self.bytes, self.order) != predicted_len {
            return None;
        }
        Some(self.take(predicted_len))
    }

    /// Takes the packets of the first records that are left, and puts them into these places from the first on. It
    /// answers how many they are: none only where none is left.
    pub(crate) fn take_into(&mut self, places: &mut [Packet<'a>; BURST]) -> usize
        ensures fits { (result ≤ 64) × (length places.new ≡ 64) }
        ensures taken { map packet_facts (take result places.new) ++ packets_of self.new ≡ packets_of self.old }
        ensures none { result ≡ 0 → packets_of self.old ≡ [] }
    {
        let mut left = *self;
        let mut count = 0;
        // Most records keep as many bytes as the one before. Nothing but speed depends on this guess.
        let mut predicted_len = places[BURST - 1].frame.len();
        'taken: while count < BURST {
            if let Some(packet) = left.next_if_len(predicted_len) {
                places[count] = packet;
                count += 1;
                continue;
            }
            let Some(packet) = left.next() else {
                break;
            };
            predicted_len = packet.frame.len();
            places[count] = packet;
            count += 1;
        }
        *self = left;
        count
    }

    // Takes the packet of the first record, which keeps so many bytes.
    #[inline(always)]
    fn take(&mut self, kept: usize) -> Packet<'a>
        requires some { self.old.count ≢ 0 }
        requires kept { kept ≡ kept_length self.old.order self.old.bytes.now }
        ensures { packets_of self.old ≡ packet_facts result ∷ packets_of self.new }
    {
        let (packet, behind) = front_of(self.bytes, self.order, self.interface, kept);
        self.bytes = behind;
        self.count -= 1;
        packet
    }
}
