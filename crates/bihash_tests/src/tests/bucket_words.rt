//! Words and hashes that were worked out by hand or published.
ghost use Rattle.std.specs.Prelude.{◌≡◌};

use bihash_words::{BlockSize, BucketWord, Shape, ShapeV4, ShapeV6, Tiny, mix};

// For tests of `bihash_words`: the size of a bucket's block.
const fn bucket_word_block(log2: u64, linear: bool) -> BlockSize
    ensures { result ≡ record { log2 = log2; linear = linear } }
{
    BlockSize { log2, linear }
}

// Words of `bihash_words`: the fields of a bucket, packed into its word and read from it.
#[test]
fn bucket_words(rt: HostRuntime) {
    let word = BucketWord::pack(5, bucket_word_block(1, true), false, 6);
    assert!(rt; word.to_word() == 0x3_2100_0005);
    assert!(rt; word.with_lock().to_word() == 0x3_6100_0005);
    assert!(rt; word.with_lock().with_lock().to_word() == 0x3_6100_0005);
    assert!(rt; BucketWord::of(0x3_2100_0005) == word);
    assert!(rt; word.page() == 5);
    assert!(rt; word.log2() == 1);
    assert!(rt; word.linear());
    assert!(rt; word.block_size() == bucket_word_block(1, true));
    assert!(rt; !word.locked());
    assert!(rt; word.with_lock().locked());
    assert!(rt; word.version() == 6);
    let greatest = BucketWord::of(0xffff_ffff_9fff_ffff);
    assert!(rt; greatest.page() == 0xff_ffff);
    assert!(rt; greatest.log2() == 31);
    assert!(rt; !greatest.linear());
    assert!(rt; greatest.version() == 8_589_934_591);
}

// Words of `bihash_words`: published values of the mixing step, and the hash of a key in each shape.
#[test]
fn hashes(rt: HostRuntime) {
    assert!(rt; mix(0) == 0);
    assert!(rt; mix(0x9e37_79b9_7f4a_7c15) == 0xe220_a839_7b1d_cdaf);
    assert!(rt; mix(0x3c6e_f372_fe94_f82a) == 0x6e78_9e6a_a1b9_65f4);
    let hash = ShapeV4::hash(&[0, 0x9e37_79b9_7f4a_7c15]);
    assert!(rt; hash == 0xe220_a839_7b1d_cdaf);
    assert!(rt; ShapeV4::hash(&[0, 0]) == 0);
    assert!(rt; ShapeV6::hash(&[0, 0, 0, 0, 0x3c6e_f372_fe94_f82a]) == 0x6e78_9e6a_a1b9_65f4);
    assert!(rt; Tiny::<8, 1000>::hash(&[12, 0]) == 12);
}
