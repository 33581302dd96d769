//! Streams whose calls are interrupted by signals.

use crate::faults::{UNIT, command};
use rl_base::memory::{MemSink, MemSource};
use rl_base::streams::{StdIn, StdOut};
use rl_unit::run::{Status, run};
use std::io::{Error, ErrorKind, Read, Write};
use std::test::Fail;

/// A reader without bytes and a writer that takes all, whose first `left` calls are interrupted.
#[derive(Drop)]
struct Interrupted {
    left: u32,
}

impl Read for Interrupted {
    fn read(&mut self, _buf: &mut [u8]) -> Result<usize, Error> {
        if self.left > 0 {
            self.left -= 1;
            return Err(Error::from(ErrorKind::Interrupted));
        }
        Ok(0)
    }
}

impl Write for Interrupted {
    fn write(&mut self, buf: &[u8]) -> Result<usize, Error> {
        if self.left > 0 {
            self.left -= 1;
            return Err(Error::from(ErrorKind::Interrupted));
        }
        Ok(buf.len())
    }

    fn flush(&mut self) -> Result<(), Error> {
        Ok(())
    }
}

#[test]
fn tries_an_interrupted_read_again(rt: HostRuntime) -> Result<(), Fail> {
    let alloc = rt.alloc();
    for (left, wanted) in [
        (0, Status::Malformed),
        (15, Status::Malformed),
        (16, Status::ReadFault),
    ] {
        let words = command(alloc)?;
        let mut source = StdIn::new(Interrupted { left });
        let mut sink = MemSink::new(alloc, 1000, Vec::new(alloc));
        let status = run(alloc, words.as_slice(), &mut source, &mut sink);
        assert_eq!(rt; status, wanted);
    }
    Ok(())
}

#[test]
fn tries_an_interrupted_write_again(rt: HostRuntime) -> Result<(), Fail> {
    let alloc = rt.alloc();
    for (left, wanted) in [
        (0, Status::Done),
        (15, Status::Done),
        (16, Status::WriteFault),
    ] {
        let words = command(alloc)?;
        let mut source = MemSource::new(Vec::from_slice(alloc, UNIT)?, 1000, Vec::new(alloc));
        let mut sink = StdOut::new(Interrupted { left });
        let status = run(alloc, words.as_slice(), &mut source, &mut sink);
        assert_eq!(rt; status, wanted);
    }
    Ok(())
}
