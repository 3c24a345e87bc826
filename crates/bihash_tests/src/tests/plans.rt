//! Worked layouts of small buckets: four places a page, at most four pages. Key k hashes to k, so
//! the even keys share a bucket and k / 2 names the page.
ghost use Rattle.std.specs.Prelude.{◌≡◌, ◌≤◌, ◌*◌, ◌^◌, IfSome};

use bihash_plan::{Plan, find, plan};
use bihash_words::{BlockSize, Tiny};

type Small = Tiny<8, 1000>;

type Place = ([u64; 2], u64);

const FREE: Place = ([7, 0], u64::MAX);

// The sizes of blocks of one, two and four pages.
const ONE: BlockSize = BlockSize {
    log2: 0,
    linear: false,
};

const TWO: BlockSize = BlockSize {
    log2: 1,
    linear: false,
};

const FOUR: BlockSize = BlockSize {
    log2: 2,
    linear: false,
};

const LINEAR_TWO: BlockSize = BlockSize {
    log2: 1,
    linear: true,
};

const LINEAR_FOUR: BlockSize = BlockSize {
    log2: 2,
    linear: true,
};

// ---- blocks

// Without a block, and with one page.
const EMPTY: [Place; 0] = [];

const FIRST: [Place; 4] = [
    ([0, 0], 100),
    ([0, 0], u64::MAX),
    ([0, 0], u64::MAX),
    ([0, 0], u64::MAX),
];

const PAGE: [Place; 4] = [([0, 0], 100), ([2, 0], 101), ([4, 0], 102), ([6, 0], 103)];

// The same with key 8, in two pages.
const TWO_PAGES: [Place; 8] = [
    ([0, 0], 100),
    ([4, 0], 102),
    ([8, 0], 104),
    ([8, 0], u64::MAX),
    ([2, 0], 101),
    ([6, 0], 103),
    ([8, 0], u64::MAX),
    ([8, 0], u64::MAX),
];

// A page whose keys need four pages beside key 16.
const EVEN_PAGE: [Place; 4] = [([0, 0], 1), ([4, 0], 2), ([8, 0], 3), ([12, 0], 4)];

// Keys of one page, however many pages there are.
const SAME_PAGE: [Place; 4] = [([0, 0], 1), ([8, 0], 2), ([16, 0], 3), ([24, 0], 4)];

// Without key 8 a free place stands before the others.
const GAP: [Place; 8] = [
    ([0, 0], 1),
    FREE,
    ([16, 0], 3),
    ([24, 0], 4),
    ([32, 0], 5),
    FREE,
    FREE,
    FREE,
];

const FULL: [Place; 16] = [
    ([0, 0], 1),
    ([8, 0], 2),
    ([16, 0], 3),
    ([24, 0], 4),
    ([32, 0], 5),
    ([40, 0], 6),
    ([48, 0], 7),
    ([56, 0], 8),
    ([64, 0], 9),
    ([72, 0], 10),
    ([80, 0], 11),
    ([88, 0], 12),
    ([96, 0], 13),
    ([104, 0], 14),
    ([112, 0], 15),
    ([120, 0], 16),
];

// ---- what is planned and found

// A block, its size, a key, and what is planned for it.
const PLANS: [(&[Place], BlockSize, u64, Plan); 9] = [
    (&EMPTY, ONE, 0, Plan::Grow(ONE)),
    (&FIRST, ONE, 2, Plan::InPlace(1)),
    (&PAGE, ONE, 4, Plan::InPlace(2)),
    (&PAGE, ONE, 8, Plan::Grow(TWO)),
    (&EVEN_PAGE, ONE, 16, Plan::Grow(FOUR)),
    (&SAME_PAGE, ONE, 32, Plan::Grow(LINEAR_TWO)),
    (&GAP, LINEAR_TWO, 8, Plan::InPlace(1)),
    (&FULL, LINEAR_FOUR, 128, Plan::Full),
    (&FULL, LINEAR_FOUR, 120, Plan::InPlace(15)),
];

// A block, its size, a key, and its place.
const FOUND: [(&[Place], BlockSize, u64, Option<usize>); 12] = [
    (&TWO_PAGES, TWO, 0, Some(0)),
    (&TWO_PAGES, TWO, 4, Some(1)),
    (&TWO_PAGES, TWO, 8, Some(2)),
    (&TWO_PAGES, TWO, 2, Some(4)),
    (&TWO_PAGES, TWO, 6, Some(5)),
    (&TWO_PAGES, TWO, 10, None),
    (&GAP, LINEAR_TWO, 0, Some(0)),
    (&GAP, LINEAR_TWO, 16, Some(2)),
    (&GAP, LINEAR_TWO, 24, Some(3)),
    (&GAP, LINEAR_TWO, 32, Some(4)),
    (&GAP, LINEAR_TWO, 8, None),
    (&FULL, LINEAR_FOUR, 128, None),
];

// For tests of plans: how many places a block of this size has. A small table has blocks of at most four pages.
fn count_to_plan(size: BlockSize) -> Option<usize>
    ensures size { IfSome result (λ _. size.log2 ≤ 2) }
    ensures count { IfSome result (λ count. count ≡ 4 * 2 ^ size.log2) }
    ensures few { IfSome result (λ count. count ≤ 16) }
{
    match size.log2 {
        0 => Some(4),
        1 => Some(8),
        2 => Some(16),
        _ => None,
    }
}

// For tests of plans: what is planned for the key of this number. `None`: a block of this size doesn't have so many
// places.
fn planned(places: &[Place], size: BlockSize, key: u64) -> Option<Plan> {
    let count = count_to_plan(size)?;
    if !places.is_empty() && places.len() != count {
        return None;
    }
    Some(plan::<Small>(places, size, &[key, 0]))
}

// For tests of plans: where the key is in a block. `None`: nowhere.
fn place_of(places: &[Place], size: BlockSize, key: u64) -> Option<usize> {
    let count = count_to_plan(size)?;
    if places.len() != count {
        return None;
    }
    find::<Small>(places, size, &[key, 0])
}

// Plans of `bihash_plan` for a key in a worked block: its place, a free one, a larger block, or Full.
#[test]
fn plans(rt: HostRuntime) {
    for (places, size, key, wanted) in PLANS {
        assert!(rt; planned(places, size, key) == Some(wanted), "key {key}");
    }
}

// What `bihash_plan` finds in a worked block: the place of a key, or none.
#[test]
fn places(rt: HostRuntime) {
    for (places, size, key, wanted) in FOUND {
        assert!(rt; place_of(places, size, key) == wanted, "key {key}");
    }
}
