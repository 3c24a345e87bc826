//! What a shared hash table is made of: its shape, the word of a bucket, the hash of a key, and the
//! decisions of updates.
#![tactic(auto)]

mod block_size;
mod bounded_map_laws;
mod bucket_of_key;
mod bucket_word;
mod bucket_word_laws;
mod expiry;
mod flow_shapes;
mod hash;
mod hash_laws;
mod key_order;
mod large_flow_shapes;
mod large_shape_laws;
mod patch;
mod recycling_note;
mod shape;
mod shape_laws;
mod tiny_shape;

pub use block_size::BlockSize;
pub use bounded_map_laws::{
    each_call_has_one_answer, maps_stay_bounded, other_keys_stay, refusals_change_nothing,
    replies_tell_what_was_found, runs_join_and_part, taken_values_stand,
    the_least_expired_key_goes,
};
pub use bucket_of_key::bucket_of;
pub use bucket_word::BucketWord;
pub use bucket_word_laws::words_pack_exactly;
pub use expiry::Expiry;
pub use flow_shapes::{ShapeV4, ShapeV6};
pub use hash::mix;
pub use hash_laws::mix_has_its_published_values;
pub use key_order::{compare, is_same};
pub use large_flow_shapes::{LargeV4, LargeV6};
pub use large_shape_laws::{large_shapes_are_sound, large_shapes_have_their_sizes};
pub use patch::{Add, AddIfAbsent, Change, Delete, FREE, Patch, Reply, Touch};
pub use recycling_note::Recycling;
pub use shape::{PAGE_PLACES, Shape};
pub use shape_laws::{
    flow_shapes_are_sound, flow_shapes_have_their_sizes, tiny_has_its_sizes, tiny_is_sound,
};
pub use tiny_shape::Tiny;
