//! The session tables for programs in C: a handle is a caller together with the table that it belongs to.
#![tactic(auto)]

mod answer_numbers;
mod any_content_callers;
mod any_content_keys;
mod any_content_renew_and_close;
mod bihash_callers;
mod bihash_keys;
mod bihash_renew_and_close;
mod box_raw_parts;
mod bucket_of_key;
mod caller_with_table;
mod caller_with_table_callers;
mod caller_with_table_keys;
mod caller_with_table_renew_and_close;
mod end_of_table;
mod handle;
mod handle_content_callers;
mod handle_content_keys;
mod handle_content_renew_and_close;
mod look_ahead;
mod options;
mod pair;
mod replace_if;
mod table_share;
mod version;

pub use answer_numbers::{
    ABSENT, ADDED, Answer, BAD_OPTIONS, CONTENDED, DONE, FOUND, FULL, MEMORY, NO_PAGES, NUMBERS,
    REPLACED, STRANGERS, Stamp, WORN, WORN_FOUND,
};
pub use bihash_keys::MaskExpiry;
pub use bucket_of_key::NO_BUCKET;
pub use handle::{Handle, handle_crosses};
pub use options::{LARGE, Options, STANDARD};
pub use pair::{Key, Pair};
