//! What the command line asks for, as types; its words and defaults stand in `command_line`.
ghost use Rattle.std.specs.Prelude.{◌≤◌};

use session_state::{Shown, Timeouts};

/// How many places the session tables have. Four stand in a page, and a bucket has at most 256.
#[derive(Clone, Copy, Debug, PartialEq, Eq)]
pub enum TableSize {
    /// 65,536 for IPv4 flows, in 4096 buckets; 16,384 for IPv6 flows, in 1024 buckets.
    Standard,
    /// 1,048,576 for each, in 65,536 buckets.
    Large,
}

/// What the report tells of a packet that has a line.
#[derive(Clone, Copy, Debug, PartialEq, Eq)]
pub enum Lines {
    /// Its verdict.
    Plain,
    /// Beside its verdict what it is, and the rule that decided.
    Explained,
    /// What it is, in an object of JSON.
    Json,
}

/// What the options set.
#[derive(Clone, Copy, Debug, PartialEq, Eq)]
pub struct Options {
    /// How many threads judge packets.
    pub workers: usize,
    pub times: Timeouts,
    pub tables: TableSize,
    /// Which packets have a line in the report.
    pub shown: Shown,
    /// What these lines tell.
    pub lines: Lines,
    /// Whether the report tells how many packets each rule decided.
    pub hits: bool,
    /// Whether it tells which sessions the tables hold after the run.
    pub sessions: bool,
    /// Whether verdicts are written as packets come.
    pub live: bool,
    /// Whether sessions that have ended are removed while packets are judged. A live run removes them in any case.
    pub ages: bool,
    pub ghost few: { (1 ≤ workers) × (workers ≤ 16) },
}

/// The names of a policy's file and of a capture's.
#[derive(Clone, Copy, Debug, PartialEq, Eq)]
pub struct Files<'a> {
    pub policy: &'a str,
    pub capture: &'a str,
}

/// The number of an interface, and the name of the file with its capture.
#[derive(Clone, Copy, Debug, PartialEq, Eq)]
pub struct CaptureFile<'a> {
    pub interface: u8,
    pub name: &'a str,
}

/// The names of a policy's file, and of those of interfaces' captures in the order of the words.
#[derive(Drop)]
pub struct Interfaces<'a> {
    pub policy: &'a str,
    pub captures: Vec<CaptureFile<'a>>,
}

/// Where an input comes from. The name `-`, which one file at most has, is standard input.
#[derive(Drop)]
pub enum Origin<'a> {
    /// All of it comes from standard input.
    Standard,
    Files(Files<'a>),
    Interfaces(Interfaces<'a>),
}

/// The names of the files that get the packets that were dropped, and those that passed, where they are to be saved.
#[derive(Clone, Copy, Debug, PartialEq, Eq)]
pub struct Saved<'a> {
    pub drops: Option<&'a str>,
    pub passes: Option<&'a str>,
}

/// Which of the shards of a capture is asked for.
#[derive(Clone, Copy, Debug, PartialEq, Eq)]
pub struct ShardAsked {
    /// From 1.
    pub number: u64,
    /// How many there are.
    pub count: u64,
    pub ghost some: { (1 ≤ number) × (1 ≤ count) },
}

/// What the words of the command line ask for.
#[derive(Drop)]
pub struct Asked<'a> {
    pub options: Options,
    pub origin: Origin<'a>,
    pub saved: Saved<'a>,
    /// The name of the file that says which verdicts are expected, where they are to be compared.
    pub expected: Option<&'a str>,
    /// The shard whose packets alone are to be judged, where it isn't all of them.
    pub shard: Option<ShardAsked>,
}
