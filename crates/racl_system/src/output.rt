//! What a report is written to.
ghost use Rattle.std.specs.Prelude.{◌≡◌, None, false};

use std::io;
use std::io::{ErrorKind, Write};

/// What a report is written to, whether its reader was gone at a write, and the number of the system's reason why the last
/// write failed, where it did and there is one.
#[derive(Drop)]
pub struct Output<W> {
    inner: W,
    pub is_closed: bool,
    pub reason: Option<i32>,
}

impl<W> Output<W> {
    /// Nothing was written.
    pub fn new(inner: W) -> Output<W>
        ensures { result ≡ record { inner = inner; is_closed = false; reason = None } }
    {
        Output {
            inner,
            is_closed: false,
            reason: None,
        }
    }
}

impl<W: Write> Write for Output<W> {
    ghost use Rattle.std.specs.Prelude.{◌≡◌, ◌⊎◌, ◌↔◌, IsTrue, MatchResult, None};
    ghost use Rattle.std.specs.Io.{WritesAtMost};
    ghost use Rattle.std.specs.Io.KnownBytes.{WriteAppends};
    ghost use Rattle.std.specs.IoError.{error_kind, raw_os_error};

    ghost contents = { λ o. W.contents o.inner };

    fn write(&mut self, buf: &[u8]) -> io::Result<usize>
        ensures bound { WritesAtMost result buf.now }
        ensures bytes { WriteAppends (W.contents self.old.inner) (W.contents self.new.inner) result buf.now }
        ensures closed { MatchResult result (λ _. self.new.is_closed ≡ self.old.is_closed)
            (λ reason. IsTrue self.new.is_closed ↔ (IsTrue self.old.is_closed ⊎ (error_kind reason ≡ ErrorKind.BrokenPipe))) }
        ensures reason { MatchResult result (λ _. self.new.reason ≡ None) (λ reason. self.new.reason ≡ raw_os_error reason) }
    {
        let result = self.inner.write(buf);
        self.reason = None;
        if let Err(error) = &result {
            self.reason = error.raw_os_error();
            if error.kind() == ErrorKind::BrokenPipe {
                self.is_closed = true;
            }
        }
        result
    }

    fn flush(&mut self) -> io::Result<()> {
        self.inner.flush()
    }
}
