//! What there is to know of a shared session table between any two atomic steps: the word rule, and what callers know.
#![tactic(auto)]

mod view;

pub use view::{
    Call, Entry, Extent, HeldBlock, Holdings, Known, ListedPage, LockedBucket, LockedStore,
    Meeting, Notes, OpenBucket, Openings, PageStore, Record, View, Write,
};
