//! The tests of the crates from `bihash_words` to `bihash_table`.
mod bucket_words;
mod plans;
mod steps;
mod table;
