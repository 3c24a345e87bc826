//! A session table that many callers share: each answer is a place in one legal history of its bucket.
#![tactic(auto)]

mod block_place_count;
mod bucket_ageing;
mod bucket_lock;
mod callers_split_and_joined;
mod change_in_place;
mod change_of_block;
mod close;
mod close_fault;
mod contended;
mod entered_value;
mod hashed_key;
mod key_with_hash;
mod loads_ahead;
mod never_expired;
mod open_bucket_search;
mod page_allocation;
mod read_places;
mod recycling;
mod renew;
mod renew_fault;
mod search;
mod shared_table;
mod shrinking;
mod try_update;
mod waiting_update;
mod worn_bucket;
mod write_places;

pub use bihash_steps::{Caller, CallerSeat, CreateFault, SplitFault};
pub use callers_split_and_joined::stamp;
pub use close_fault::CloseFault;
pub use contended::Contended;
pub use key_with_hash::KeyWithHash;
pub use renew_fault::RenewFault;
pub use shared_table::{Sessions, create, create_cutting};
