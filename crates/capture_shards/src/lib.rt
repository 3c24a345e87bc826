//! A capture that several machines judge, each the packets of one shard.
#![tactic(auto)]

mod own_records;
mod own_test;
mod shard;
mod shard_laws;

pub use own_records::{OwnRecords, records_of_shard};
pub use own_test::each_shard_has_its_packets;
pub use shard::Shard;
pub use shard_laws::{a_shard_is_judged_as_in_the_whole, shards_give_one_report};
