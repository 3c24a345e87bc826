//! How much of a long input was read, on a terminal.
ghost use Rattle.std.specs.Prelude.{◌≡◌, None, false};

use racl_io::{DeviceFault, Source};
use std::io::IsTerminal;
use std::time::{Duration, Instant};

/// A line on standard error, written in place, that says how much was read. It is there where standard error is a
/// terminal and reading takes more than two seconds. Where something goes wrong with it, nothing is said.
#[derive(Drop)]
pub struct Progress<'a> {
    rt: &'a HostRuntime,
    bytes: u64,
    /// When the line is written next; None where it isn't any more.
    due: Option<Instant>,
    is_shown: bool,
}

// The moment so many seconds from now, at which progress is to be shown.
fn progress_due_in(rt: &HostRuntime, seconds: u64) -> Option<Instant> {
    match Instant::now(rt) {
        Ok(now) => now.checked_add(Duration::from_secs(seconds)),
        Err(_) => None,
    }
}

impl<'a> Progress<'a> {
    /// Nothing was read. No clause says when the line is written, since that is the clock's and the terminal's.
    pub fn new(rt: &'a HostRuntime) -> Progress<'a>
        ensures bytes { result.bytes ≡ 0 }
        ensures unshown { result.is_shown ≡ false }
    {
        let due = if rt.stderr().is_terminal() {
            progress_due_in(rt, 2)
        } else {
            None
        };
        Progress {
            rt,
            bytes: 0,
            due,
            is_shown: false,
        }
    }

    /// Nothing was read, and no line is ever written.
    pub fn silent(rt: &'a HostRuntime) -> Progress<'a>
        ensures { result.due ≡ None }
    {
        Progress {
            rt,
            bytes: 0,
            due: None,
            is_shown: false,
        }
    }

    fn is_due(&self) -> bool {
        match (self.due, Instant::now(self.rt)) {
            (Some(due), Ok(now)) => due <= now,
            _ => false,
        }
    }

    // Counts bytes that were read, and writes the line where it is due.
    fn count(&mut self, bytes: usize) {
        self.bytes = self.bytes.saturating_add(bytes as u64);
        if self.is_due() {
            let mebibytes = self.bytes / 1_048_576;
            let _ = self
                .rt
                .eprint(format_args!("\rracl: {mebibytes} MiB are read"));
            self.is_shown = true;
            self.due = progress_due_in(self.rt, 1);
        }
    }

    /// Removes the line, and writes none any more. No clause says what a terminal shows.
    pub fn end(&mut self)
        ensures unshown { self.new.is_shown ≡ false }
        ensures ended { self.new.due ≡ None }
    {
        if self.is_shown {
            let _ = self.rt.eprint("\r\x1b[K");
        }
        self.is_shown = false;
        self.due = None;
    }
}

/// A source of which it is said how much was read.
#[derive(Drop)]
pub struct Watched<'a, S> {
    pub source: S,
    pub progress: Progress<'a>,
}

impl<'a, S> Watched<'a, S> {
    /// The source, whose progress is shown on a terminal, and of which nothing was read.
    pub fn new(rt: &'a HostRuntime, source: S) -> Watched<'a, S>
        ensures { result.source ≡ source }
    {
        Watched {
            source,
            progress: Progress::new(rt),
        }
    }
}

/// A source of which nothing was read, whose progress is shown on a terminal where that is asked and no report is written there.
pub fn watched_where<'a, S>(rt: &'a HostRuntime, is_asked: bool, source: S) -> Watched<'a, S>
    ensures { result.source ≡ source }
{
    let progress = if is_asked && !rt.stdout().is_terminal() {
        Progress::new(rt)
    } else {
        Progress::silent(rt)
    };
    Watched { source, progress }
}

impl<S: Source> Source for Watched<'_, S> {
    ghost bytes = { λ w. S.bytes w.source };

    ghost failures = { λ w. S.failures w.source };

    // Reads from the source, and shows the progress while bytes come.
    fn read(&mut self, buf: &mut [u8]) -> Result<usize, DeviceFault> {
        let result = self.source.read(buf);
        match result {
            Ok(count) if count > 0 => self.progress.count(count),
            _ => self.progress.end(),
        }
        result
    }
}
