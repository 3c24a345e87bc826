//! Devices: what gives bytes, and what takes them.
ghost use Rattle.std.specs.Prelude.{◌≡◌, ◌-◌, ◌<◌, ◌≤◌, ◌^◌, ℕ, List, Option, IfOk, length};
ghost use Rattle.std.specs.Io.KnownBytes.{ReadConsumes, WriteAppends};
ghost use Rattle.racl_io.specs.Devices.{failures_after_read, failures_after_write};

use std::io::{ErrorKind, Read, Write};

/// A device failed.
#[derive(Clone, Copy, Debug, PartialEq, Eq)]
pub struct DeviceFault;

/// What gives bytes.
pub trait Source {
    /// The bytes that reads will give from here on, where they are known.
    ghost bytes: { Self → Option (List ℕ) };

    /// How often it failed.
    ghost failures: { Self → ℕ };

    /// Reads some bytes, and none only at the end or where there is no room.
    fn read(&mut self, buf: &mut [u8]) -> Result<usize, DeviceFault>
        requires { failures self.old < 2 ^ 64 - 1 }
        ensures bound { IfOk result (λ n. n ≤ length buf.new) }
        ensures bytes { ReadConsumes (bytes self.old) (bytes self.new) result buf.new }
        ensures failures { failures self.new ≡ failures_after_read (failures self.old) result };
}

/// What takes bytes.
pub trait Sink {
    /// The bytes that it took, where they are known.
    ghost bytes: { Self → Option (List ℕ) };

    /// How often it failed.
    ghost failures: { Self → ℕ };

    /// Writes some of the bytes.
    fn write(&mut self, buf: &[u8]) -> Result<usize, DeviceFault>
        requires { failures self.old < 2 ^ 64 - 1 }
        ensures bound { IfOk result (λ n. n ≤ length buf.now) }
        ensures bytes { WriteAppends (bytes self.old) (bytes self.new) result buf.now }
        ensures failures { failures self.new ≡ failures_after_write (failures self.old) result };
}

/// A reader or a writer of std as a device. A read or a write that a signal interrupts is no failure: it is tried again.
#[derive(Drop)]
pub struct Device<T> {
    pub inner: T,
    pub failures: u64,
}

impl<T> Device<T> {
    pub fn new(inner: T) -> Device<T>
        ensures { result ≡ record { inner = inner; failures = 0 } }
    {
        Device { inner, failures: 0 }
    }
}

impl<T: Read> Source for Device<T> {
    ghost bytes = { λ d. T.remaining d.inner };

    ghost failures = { λ d. d.failures };

    fn read(&mut self, buf: &mut [u8]) -> Result<usize, DeviceFault> {
        'tries: for _ in 0..u64::MAX {
            match self.inner.read(buf) {
                Ok(n) => return Ok(n),
                Err(e) if e.kind() == ErrorKind::Interrupted => {}
                Err(_) => break,
            }
        }
        self.failures += 1;
        Err(DeviceFault)
    }
}

impl<T: Write> Sink for Device<T> {
    ghost bytes = { λ d. T.contents d.inner };

    ghost failures = { λ d. d.failures };

    fn write(&mut self, buf: &[u8]) -> Result<usize, DeviceFault> {
        'tries: for _ in 0..u64::MAX {
            match self.inner.write(buf) {
                Ok(0) => {
                    self.failures += 1;
                    return Ok(0);
                }
                Ok(n) => return Ok(n),
                Err(e) if e.kind() == ErrorKind::Interrupted => {}
                Err(_) => break,
            }
        }
        self.failures += 1;
        Err(DeviceFault)
    }
}
