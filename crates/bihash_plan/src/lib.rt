//! Pure plans for the blocks of a bucket: where a key stands, what a new key needs, and how a
//! larger block is laid out.
#![tactic(auto)]

mod block_fit;
mod block_layout;
mod block_pages;
mod block_search;
mod key_plan;
mod larger_block;
mod least_expired_pair;
mod plan_answer;
mod recycled_place;
mod smaller_block;

pub use block_layout::{lay, lay_kept};
pub use block_pages::page_count;
pub use block_search::find;
pub use key_plan::plan;
pub use larger_block::larger;
pub use least_expired_pair::recycle;
pub use plan_answer::Plan;
pub use recycled_place::Recycle;
pub use smaller_block::smaller;
