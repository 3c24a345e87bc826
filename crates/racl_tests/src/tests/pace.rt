//! A run that measures itself keeps the manner in which a packet takes less time.
use racl_runs::{Pace, Stopwatch};
use std::io;
use std::test::Fail;
use std::time::{Clock, Duration};

// How many packets the test's batches have.
const PACKETS: usize = 50_000;

// A clock that stands at so many nanoseconds.
#[derive(Drop)]
struct At(u64);

impl Clock for At {
    fn monotonic(&self) -> io::Result<Duration> {
        Ok(Duration::from_nanos(self.0))
    }

    fn since_1970(&self) -> io::Result<Duration> {
        Ok(Duration::from_nanos(self.0))
    }
}

// The pace after so many more batches, in each of which a packet took so many nanoseconds.
fn after(pace: Pace, batches: u32, nanos: u32) -> Pace {
    let mut pace = pace;
    for _ in 0..batches {
        let began = Stopwatch {
            clock: &At(7),
            pace,
        }
        .start(PACKETS);
        let mut watch = Stopwatch {
            clock: &At(7 + u64::from(nanos) * 50_000),
            pace,
        };
        watch.stop(began, PACKETS);
        pace = watch.pace;
    }
    pace
}

#[test]
fn the_faster_manner_is_kept(rt: HostRuntime) -> Result<(), Fail> {
    // threads at first, then a batch by turns, in which a packet takes less
    let pace = after(Pace::new(), 1, 90);
    assert!(rt; !pace.takes_turns());
    let pace = after(pace, 1, 60);
    assert!(rt; pace.takes_turns());
    let pace = after(pace, 1, 40);
    // 32 batches by turns, then one in threads, in which it takes more: 64 by turns
    assert!(rt; after(pace, 31, 41).takes_turns());
    let pace = after(pace, 32, 41);
    assert!(rt; !pace.takes_turns());
    let pace = after(pace, 1, 55);
    assert!(rt; after(pace, 63, 42).takes_turns());
    let pace = after(pace, 64, 42);
    assert!(rt; !pace.takes_turns());
    // it takes less in threads now
    let pace = after(pace, 1, 30);
    assert!(rt; !after(pace, 31, 30).takes_turns());
    assert!(rt; after(pace, 32, 30).takes_turns());
    Ok(())
}

#[test]
fn few_packets_are_not_timed(rt: HostRuntime) -> Result<(), Fail> {
    let watch = Stopwatch::new(&At(7));
    assert!(rt; watch.start(49_151).is_none());
    assert!(rt; watch.start(49_152).is_some());
    Ok(())
}
