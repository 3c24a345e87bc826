//! Captures of the classic pcap format, and Ethernet frames as IP packets with their five-tuples.
#![tactic(auto)]

mod capture;
mod capture_laws;
mod ethernet;
mod frame;
mod frame_direction;
mod frame_laws;
mod ip_packet;
mod ipv4;
mod ipv6;
mod packet;
mod packet_bursts;
mod packets;
mod packets_of_records;
mod plain_frame_at;
mod plain_packet;
mod record_marks;
mod records_at_front;
mod transport;
mod tuple;

pub use capture::{
    Capture, CaptureFault, CheckedCapture, Order, capture_header, check_capture, read_capture,
};
pub use capture_laws::{a_cut_capture_keeps_its_front, each_capture_has_one_reading};
pub use frame::{Frame, plain_frame, view};
pub use frame_laws::{
    bytes_after_the_packet_are_not_seen, each_frame_has_one_view, own_address_decides_the_way_alone,
};
pub use packet::Packet;
pub use packet_bursts::PacketBursts;
pub use packets::Packets;
pub use packets_of_records::Records;
pub use plain_frame_at::read_plain_frame;
pub use plain_packet::{PlainFrame, PlainPacket, plain};
pub use record_marks::{MARKS, Mark, MarkedRecords};
pub use records_at_front::{Front, NextRecord, Stop, front_records, next_record};
pub use tuple::{Direction, Family, Fields, Mac, Tuple};
