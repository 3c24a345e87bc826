//! Records of a shard that were worked out by hand.
ghost use Rattle.std.specs.Prelude.{◌≤◌};

use super::filter_test_refused;
use capture_shards::{Shard, records_of_shard};
use packet_view::Order;
use std::test::Fail;

/// Three records of ARP frames, little-endian, and the front of another.
const RECORDS: [u8; 95] = [
    0x64, 0, 0, 0, 0, 0, 0, 0, 14, 0, 0, 0, 14, 0, 0, 0, // 100 seconds
    0x02, 0, 0, 0, 0, 0x02, 0x02, 0, 0, 0, 0, 0x01, 0x08, 0x06, //
    0x6a, 0, 0, 0, 0, 0, 0, 0, 14, 0, 0, 0, 14, 0, 0, 0, // 106 seconds
    0x02, 0, 0, 0, 0, 0x02, 0x02, 0, 0, 0, 0, 0x03, 0x08, 0x06, //
    0x69, 0, 0, 0, 0, 0, 0, 0, 14, 0, 0, 0, 14, 0, 0, 0, // 105 seconds
    0x02, 0, 0, 0, 0, 0x02, 0x02, 0, 0, 0, 0, 0x05, 0x08, 0x06, //
    0x6b, 0, 0, 0, 0,
];

// The shard with this number of two.
fn one_of_two(number: u64) -> Shard
    requires { 1 ≤ number }
{
    Shard {
        number,
        count: 2,
        log2_four: 12,
        log2_six: 10,
    }
}

/// Packets without a flow fall to shards in turn: behind four others the second of three is the second shard's, and the first
/// shard has both others. Either hears of the latest second of all whole records.
#[test]
fn own_records_keep_their_numbers(rt: HostRuntime) -> Result<(), Fail> {
    let Ok(first) = records_of_shard(rt.alloc(), &one_of_two(1), 4, &RECORDS, Order::Little) else {
        return filter_test_refused();
    };
    let Ok(second) = records_of_shard(rt.alloc(), &one_of_two(2), 4, &RECORDS, Order::Little) else {
        return filter_test_refused();
    };
    assert!(rt; first.numbers.as_slice() == [5, 7].as_slice());
    let (one, other) = first.bytes.split_at(30.min(first.bytes.len()));
    assert!(rt; one == &RECORDS[..30]);
    assert!(rt; other == &RECORDS[60..90]);
    assert!(rt; second.numbers.as_slice() == [6].as_slice());
    assert!(rt; second.bytes.as_slice() == &RECORDS[30..60]);
    assert!(rt; (first.all, first.latest, second.all, second.latest) == (3, 106, 3, 106));
    Ok(())
}
