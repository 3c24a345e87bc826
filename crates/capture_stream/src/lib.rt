//! A capture that is parted into records while it is read, and those who judge its packets and save its records.
#![tactic(auto)]

mod arrivals;
mod found_records;
mod judge;
mod live_read_sizes;
mod record_parting;
mod saver;

pub use arrivals::{Arrival, Arrivals, FaultAt};
pub use found_records::{Found, find_records};
pub use judge::Judge;
pub use live_read_sizes::ReadSize;
pub use record_parting::{RecordParting, is_cut};
pub use saver::{Saver, Unsaved};
