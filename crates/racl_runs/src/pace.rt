//! Whether workers judge the packets of a batch in threads of their own or by turns in one: a run measures itself, and keeps
//! what took less. What they say is the same, so that no promise rests on it.
ghost use Rattle.std.specs.Prelude.{◌≡◌, ◌<◌, None, Option};
ghost use Rattle.std.specs.declared.time.Instant.{Instant};
ghost use Rattle.racl_runs.specs.Paces.{after_batch, first_pace, noted, takes_turns};

use crate::sized_tables_and_workers::MANY_PACKETS;
use std::time::{Clock, Instant};

/// How many batches are judged in threads before turns are tried: the first one finds nothing in the caches.
const BEFORE_TURNS: u32 = 2;

/// For how many batches a manner is kept at first before the other is tried again.
const FIRST_STRETCH: u32 = 32;

/// For how many batches a manner is kept at most before the other is tried again.
const LONGEST_STRETCH: u32 = 64;

/// How batches of many packets are judged: in the manner that is kept, and now and then one in the other, which is kept from
/// then on where a packet took less time in it.
#[derive(Clone, Copy, Debug)]
pub struct Pace {
    /// Whether the manner that is kept is by turns, and else in threads.
    pub by_turns: bool,
    /// Whether the next batch is judged in the other manner.
    pub tries: bool,
    /// How many batches are judged before the other manner is tried.
    pub left: u32,
    /// For how many batches the manner is kept from one try to the next.
    pub stretch: u32,
    /// What a packet took when a batch was judged last in the manner that is kept, in nanoseconds.
    pub took: u128,
}

impl Pace {
    /// That of a run before its first batch.
    pub fn new() -> Pace
        ensures { result ≡ first_pace }
    {
        Pace {
            by_turns: false,
            tries: false,
            left: BEFORE_TURNS,
            stretch: FIRST_STRETCH,
            took: 0,
        }
    }

    /// Whether the next batch is judged by turns.
    pub fn takes_turns(&self) -> bool
        ensures { result ≡ takes_turns self.now }
    {
        if self.tries {
            !self.by_turns
        } else {
            self.by_turns
        }
    }

    // The pace after a batch in which a packet took so many nanoseconds.
    fn after(self, took: u128) -> Pace
        ensures { result ≡ after_batch self took }
    {
        if !self.tries {
            return Pace {
                tries: self.left <= 1,
                left: self.left.saturating_sub(1),
                took,
                ..self
            };
        }
        if took < self.took {
            return Pace {
                by_turns: !self.by_turns,
                tries: false,
                left: FIRST_STRETCH,
                stretch: FIRST_STRETCH,
                took,
            };
        }
        let stretch = self.stretch.saturating_mul(2).min(LONGEST_STRETCH);
        Pace {
            tries: false,
            left: stretch,
            stretch,
            ..self
        }
    }

    /// Notes a batch of so many packets that began and ended then, where both are known.
    pub fn note(&mut self, began: Option<Instant>, ended: Option<Instant>, count: usize)
        ensures { self.new ≡ noted self.old began ended count }
    {
        if let Some(began) = began {
            if let Some(ended) = ended {
                let took = ended.duration_since(began).as_nanos();
                *self = self.after(took / (count as u128).max(1));
            }
        }
    }
}

/// A run's pace, and the clock that its batches are timed on.
#[derive(Drop)]
pub struct Stopwatch<'t, T> {
    pub clock: &'t T,
    pub pace: Pace,
}

impl<'t, T> Stopwatch<'t, T> {
    ghost use Rattle.std.specs.Prelude.{◌≡◌};
    ghost use Rattle.racl_runs.specs.Paces.{first_pace};

    /// That of a run before its first batch, on this clock.
    pub fn new(clock: &'t T) -> Stopwatch<'t, T>
        ensures { result.pace ≡ first_pace }
    {
        Stopwatch {
            clock,
            pace: Pace::new(),
        }
    }
}

impl<'t, T: Clock> Stopwatch<'t, T> {
    ghost use Rattle.std.specs.Prelude.{◌≡◌, ◌<◌, None, Option};
    ghost use Rattle.std.specs.declared.time.Instant.{Instant};
    ghost use Rattle.racl_runs.specs.Paces.{noted};

    /// When a batch of so many packets begins, where they are so many that threads may pay and the clock can be read.
    pub fn start(&self, count: usize) -> Option<Instant>
        ensures { count < 49152 → result ≡ None }
    {
        if count < MANY_PACKETS {
            return None;
        }
        match Instant::now(self.clock) {
            Ok(began) => Some(began),
            Err(_) => None,
        }
    }

    /// Notes a batch of so many packets that began then and ends now.
    pub fn stop(&mut self, began: Option<Instant>, count: usize)
        ensures { (ended : Option Instant) × (self.new ≡ record self.old { pace = noted self.old.pace began ended count }) }
    {
        let ended = self.start(count);
        self.pace.note(began, ended, count);
    }
}
