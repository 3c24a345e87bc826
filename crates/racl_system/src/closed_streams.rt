//! Standard streams that are closed.

use std::fs::File;
use std::io;
use std::os::fd::{AsRawFd, IntoRawFd};

/// The number of standard error, the last of the standard streams.
const LAST_STREAM: i32 = 2;

/// How many standard streams there are.
const STREAMS: usize = 3;

/// Opens the root folder in the place of each standard stream that is closed, for the rest of the run, so that no file that is opened
/// later gets its number: a folder's bytes can't be read or written, so that such a stream fails as a closed one does. It is to be
/// called before any file is opened. No clause can name what descriptors are open: `tests/run` looks at it.
pub fn hold_closed_streams(rt: &HostRuntime) -> io::Result<()> {
    for _ in 0..STREAMS {
        // The system gives the lowest number that is free.
        let root = File::open(rt, "/")?;
        if root.as_raw_fd() > LAST_STREAM {
            return Ok(());
        }
        let _ = root.into_raw_fd();
    }
    Ok(())
}
