//! The words of a shared session table under one rule, and the atomic steps on them.
#![tactic(auto)]

mod create_fault;
mod event;
mod loads_ahead;
mod new_row;
mod renewed_row;
mod row_and_callers;
mod row_beginning;
mod row_layout;
mod scratch;
mod split_fault;
mod steps_on_buckets;
mod steps_on_callers;
mod steps_on_page_store;

pub use create_fault::CreateFault;
pub use event::Event;
pub use new_row::open_row;
pub use renewed_row::reopen_row;
pub use row_and_callers::{Caller, CallerSeat, Row};
pub use scratch::Scratch;
pub use split_fault::SplitFault;
pub use steps_on_buckets::Calling;
pub use steps_on_page_store::PoolWord;
