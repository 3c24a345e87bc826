//! Ethernet headers with up to two VLAN tags (IEEE 802.3, 802.1Q and 802.1ad).
ghost use Rattle.std.specs.Prelude.{◌≡◌};
ghost use Rattle.packet_view.specs.Ethernet.{is_tag_type};
ghost use Rattle.packet_view.specs.inner.FrameSteps.{after_tag, content_of, contents};

use byteorder::{BigEndian, ByteOrder};

/// Whether a VLAN tag stands under this Ethernet type.
#[inline]
fn is_tag(kind: u16) -> bool
    ensures { result ≡ is_tag_type kind }
{
    matches!(kind, 0x8100 | 0x88a8)
}

/// The type that a frame's content has after one VLAN tag, if a tag stands here. None where the tag is cut.
#[inline]
fn past_tag(kind: u16, content: &[u8]) -> Option<(u16, &[u8])>
    ensures { contents result ≡ after_tag kind content.now }
{
    if !is_tag(kind) {
        return Some((kind, content));
    }
    if content.len() < 4 {
        return None;
    }
    Some((BigEndian::read_u16(&content[2..]), &content[4..]))
}

/// The Ethernet type of a frame and its content, after up to two VLAN tags. None where the frame ends before them.
#[inline]
pub fn content(frame: &[u8]) -> Option<(u16, &[u8])>
    ensures { contents result ≡ content_of frame.now }
{
    if frame.len() < 14 {
        return None;
    }
    let kind = BigEndian::read_u16(&frame[12..]);
    let content = &frame[14..];
    if !is_tag(kind) {
        return Some((kind, content));
    }
    let (kind, content) = past_tag(kind, content)?;
    past_tag(kind, content)
}
