//! One run: what a source gives is judged, and who observes it is told.
#![tactic(auto)]

mod batch;
mod both;
mod capture_laws;
mod capture_report;
mod capture_start;
mod captures_in_turn;
mod captures_report;
mod coming_captures;
mod judge;
mod latest_second;
mod lines_in_turn;
mod numbered_lines;
mod observer;
mod observer_pair;
mod one_capture;
mod one_filter;
mod own_report;
mod running;
mod saved_records;
mod sharded;
mod source;
mod told_lines;
mod turn_report;

pub use batch::Batch;
pub use both::Both;
pub use capture_laws::each_capture_comes_in_its_order;
pub use capture_report::{OpenCapture, ReportedCapture, report_capture};
pub use capture_start::CaptureStart;
pub use captures_in_turn::CapturesInTurn;
pub use captures_report::{ReportedCaptures, report_captures};
pub use coming_captures::{ComingCaptures, Lane, new_lanes};
pub use judge::Judge;
pub use lines_in_turn::LinesInTurn;
pub use observer::Observer;
pub use one_capture::OneCapture;
pub use one_filter::OneFilter;
pub use own_report::{ReportedShare, Share, report_share};
pub use running::run;
pub use saved_records::SavedRecords;
pub use sharded::Sharded;
pub use source::{CaptureSource, Step};
pub use told_lines::ToldLines;
pub use turn_report::{CapturesAtHand, ReportedTurns, report_in_turn};
