//! Devices that are interrupted, give few bytes, and fail.
ghost use Rattle.std.specs.Prelude.{◌≤◌, None, IfOk};

use racl_io::{Device, DeviceFault, Fault, Source, read_until, write_all};
use std::io;
use std::io::{Error, ErrorKind, Read, Write};
use std::test::Fail;

/// Gives seven bytes a read, and fails once it has made its reads.
#[derive(Drop)]
struct Sevens {
    reads: usize,
    failures: u64,
}

impl Source for Sevens {
    ghost bytes = { λ _. None };

    ghost failures = { λ s. s.failures };

    // For tests of devices: a read of seven bytes, or one that fails.
    fn read(&mut self, buf: &mut [u8]) -> Result<usize, DeviceFault> {
        if self.reads == 0 {
            self.failures += 1;
            return Err(DeviceFault);
        }
        self.reads -= 1;
        let count = buf.len().min(7);
        buf[..count].fill(7);
        Ok(count)
    }
}

/// Is interrupted so often before each read and each write, of a byte at most.
#[derive(Drop)]
struct Interrupted {
    times: u8,
    left: u8,
    calls: u8,
}

impl Interrupted {
    // For tests of devices: one that is interrupted so often before each byte.
    fn new(times: u8) -> Interrupted {
        Interrupted {
            times,
            left: times,
            calls: 0,
        }
    }

    // For tests of devices: a read or a write, which is interrupted or moves a byte.
    fn call(&mut self, len: usize) -> io::Result<usize>
        ensures { IfOk result (λ n. n ≤ len) }
    {
        self.calls = self.calls.wrapping_add(1);
        if self.left > 0 {
            self.left -= 1;
            return Err(Error::from(ErrorKind::Interrupted));
        }
        self.left = self.times;
        Ok(len.min(1))
    }
}

impl Read for Interrupted {
    // For tests of devices: a read that may be interrupted.
    fn read(&mut self, buf: &mut [u8]) -> io::Result<usize> {
        self.call(buf.len())
    }
}

impl Write for Interrupted {
    // For tests of devices: a write that may be interrupted.
    fn write(&mut self, buf: &[u8]) -> io::Result<usize> {
        self.call(buf.len())
    }

    // For tests of devices: nothing waits to be written.
    fn flush(&mut self) -> io::Result<()> {
        Ok(())
    }
}

#[test]
fn an_interrupted_device_is_asked_again(rt: HostRuntime) -> Result<(), Fail> {
    let mut reader = Device::new(Interrupted::new(2));
    let mut all = Vec::new(rt.alloc());
    assert!(rt; !read_until(&mut reader, &mut all, 3)?);
    assert!(rt; (all.len(), reader.inner.calls, reader.failures) == (3, 9, 0));
    let mut writer = Device::new(Interrupted::new(2));
    write_all(&mut writer, &[1; 3])?;
    assert!(rt; (writer.inner.calls, writer.failures) == (9, 0));
    Ok(())
}

/// Reads that give fewer bytes than are asked for, or none and a fault.
#[test]
fn a_read_may_be_short_or_fail(rt: HostRuntime) -> Result<(), Fail> {
    let mut reader = Sevens {
        reads: 3,
        failures: 0,
    };
    let mut all = Vec::new(rt.alloc());
    assert!(rt; !read_until(&mut reader, &mut all, 10)?);
    assert!(rt; all.as_slice() == [7u8; 10].as_slice());
    assert!(rt; read_until(&mut reader, &mut all, 18).err() == Some(Fault::Read));
    assert!(rt; (all.len(), reader.failures) == (17, 1));
    Ok(())
}
