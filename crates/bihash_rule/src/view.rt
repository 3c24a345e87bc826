//! What a caller knows, as proofs and contracts see it. Of these types only extents are ever made.
use bihash_words::{BlockSize, Change, Recycling, Reply};
use std::collections::LinkedList;

/// One write of a bucket's history: the caller number that made it, the words of its key, what was done at
/// the key, and which key was removed for it.
pub struct Write {
    pub by: u64,
    pub key: LinkedList<u64>,
    pub change: Change,
    pub recycling: Recycling,
}

/// One answered call. The stamp of a write is its number in the history of its bucket; that of any other
/// call is how many writes stood before it. A call that asked an expiry bears what it told, and the key that
/// was removed. A refusal for want of pages bears the page store that it saw.
pub struct Call {
    pub bucket: u64,
    pub stamp: u64,
    pub key: LinkedList<u64>,
    pub found: Option<u64>,
    pub change: Change,
    pub reply: Reply,
    pub recycling: Recycling,
    pub store: Option<PageStore>,
}

/// A caller number, its answered calls in their order, and how many bucket locks were ever taken under
/// it.
pub struct Record {
    pub number: u64,
    pub calls: LinkedList<Call>,
    pub locks: u64,
}

/// One entry of the log of a table: an answered call, and the caller number that it was made under.
pub struct Entry {
    pub by: u64,
    pub call: Call,
}

/// Where the block of a bucket lies: its first page (0: there is no block), and its size.
#[derive(Clone, Copy)]
pub struct Extent {
    pub page: u64,
    pub size: BlockSize,
}

/// A bucket whose lock bit the caller set: its version and block, the words of the block when it was
/// locked and now, and whether the caller stored one of them.
pub struct LockedBucket {
    pub bucket: u64,
    pub version: u64,
    pub extent: Extent,
    pub was: LinkedList<u64>,
    pub now: LinkedList<u64>,
    pub stored: bool,
}

/// The page store: how many pages were ever handed out, the first pages of the returned blocks of each
/// log2, and whether a block was taken that no bucket has yet.
pub struct PageStore {
    pub used: u64,
    pub returned: LinkedList<LinkedList<u64>>,
    pub unpublished: bool,
}

/// A page number that is in the word after the last of the returned blocks of this log2.
pub struct ListedPage {
    pub log2: u64,
    pub page: u64,
}

/// The page store under the allocation lock, and what was stored after one of its lists.
pub struct LockedStore {
    pub store: PageStore,
    pub listed: Option<ListedPage>,
}

/// A block that no bucket has: it was taken and not published yet, or its bucket has another one now.
/// Its words are those that stand there.
pub struct HeldBlock {
    pub page: u64,
    pub log2: u64,
    pub words: LinkedList<u64>,
}

/// What the caller holds: the lock of a bucket, the allocation lock, a block.
pub struct Holdings {
    pub bucket: Option<LockedBucket>,
    pub store: Option<LockedStore>,
    pub block: Option<HeldBlock>,
}

/// A bucket that a load found unlocked: its version and block, the words of the block at that moment,
/// and those that were read since, each with its place.
pub struct OpenBucket {
    pub bucket: u64,
    pub version: u64,
    pub extent: Extent,
    pub block: LinkedList<u64>,
    pub reads: LinkedList<(u64, u64)>,
}

/// With what a row began: the pairs of each bucket, and how many pages had been handed out.
pub struct Openings {
    pub pairs: LinkedList<LinkedList<(LinkedList<u64>, u64)>>,
    pub used: u64,
}

/// What is known of the buckets: with what the row began, and the first writes of each.
pub struct Known {
    pub openings: Openings,
    pub writes: LinkedList<LinkedList<Write>>,
}

/// What two callers knew when they met, of the buckets and of the log, and their records.
pub struct Meeting {
    pub first: Known,
    pub second: Known,
    pub first_log: LinkedList<Entry>,
    pub second_log: LinkedList<Entry>,
    pub first_records: LinkedList<Record>,
    pub second_records: LinkedList<Record>,
}

/// What the caller noted: a bucket that it saw unlocked, the page store when it last opened the
/// allocation lock, a meeting, and the first words of the row, which it loaded as a lone caller.
pub struct Notes {
    pub open_bucket: Option<OpenBucket>,
    pub left: Option<PageStore>,
    pub meeting: Option<Meeting>,
    pub row: LinkedList<u64>,
}

/// A caller: its numbers with their records, of which it acts under the first, what it knows of the
/// buckets and of the log of all answered calls, the greatest caller count that it saw, whether it noted
/// that it has every number, what it holds, and what it noted.
pub struct View {
    pub records: LinkedList<Record>,
    pub known: Known,
    pub log: LinkedList<Entry>,
    pub seen: u64,
    pub lone: bool,
    pub holds: Holdings,
    pub notes: Notes,
}
