//! What goes into the program and what comes out: devices, the parts of an input, the report on verdicts, and the
//! faults.
#![tactic(auto)]

mod capture_bytes;
mod device;
mod digit_decoding;
mod fault;
mod file_kind;
mod front_kept;
mod interface_name;
mod lines_one_by_one;
mod marker_line;
mod number_printing;
mod packet_lines;
mod read_buffer;
mod reading_and_writing;
mod report_lines;
mod report_piece;
mod shown_lines;
mod teller;
mod totals_and_truncation;
mod whole_lines;

pub use capture_bytes::CaptureBytes;
pub use device::{Device, DeviceFault, Sink, Source};
pub use digit_decoding::{decode_digits, is_blank};
pub use fault::Fault;
pub use file_kind::{Other, is_capture, other_file};
pub use front_kept::FrontKept;
pub use interface_name::push_name;
pub use lines_one_by_one::{PacketLine, write_packet_lines};
pub use marker_line::{Digits, Form, Input, Numbered, cut_at_numbered_marker, split_input};
pub use number_printing::Numeral;
pub use read_buffer::ReadBuffer;
pub use reading_and_writing::{MOST_BYTES, drain, read_until, write_all};
pub use report_lines::ReportLines;
pub use report_piece::Piece;
pub use teller::Teller;
pub use totals_and_truncation::{
    Captured, Totals, captured_alone, is_truncated, passed, totals_on, without_pages, write_ends,
    write_truncation, write_truncations,
};
