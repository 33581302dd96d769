ghost use Rattle.std.specs.Prelude.{◌≡◌, ◌^◌, ◌<◌, None};
ghost use Rattle.std.specs.Io.{ReadsAtMost, WritesAtMost};
ghost use Rattle.std.specs.Io.KnownBytes.{ReadConsumes, WriteAppends};

use crate::error::Failed;
use crate::io::{Sink, Source};
use std::io::{ErrorKind, Read, Write};

/// The most calls that one transfer takes where each before the last was interrupted by a signal. Signals that a host sends come
/// one at a time and far apart; the bound makes a transfer end over a stream whose every call is interrupted.
const ATTEMPTS: u32 = 16;

/// Reads as `Read::read`, in up to `ATTEMPTS` calls: one that was interrupted is made again.
fn read_uninterrupted<R: Read>(reader: &mut R, buf: &mut [u8]) -> Result<usize, Failed>
    ensures bound { ReadsAtMost result buf.new }
    ensures bytes { ReadConsumes (R.remaining reader.old) (R.remaining reader.new) result buf.new }
{
    'attempts: for _ in 0..ATTEMPTS {
        match reader.read(buf) {
            Ok(count) => return Ok(count),
            Err(e) if e.kind() == ErrorKind::Interrupted => {}
            Err(_) => return Err(Failed),
        }
    }
    Err(Failed)
}

/// Writes as `Write::write`, in up to `ATTEMPTS` calls: one that was interrupted is made again.
fn write_uninterrupted<W: Write>(writer: &mut W, bytes: &[u8]) -> Result<usize, Failed>
    ensures bound { WritesAtMost result bytes.now }
    ensures bytes { WriteAppends (W.contents writer.old) (W.contents writer.new) result bytes.now }
{
    'attempts: for _ in 0..ATTEMPTS {
        match writer.write(bytes) {
            Ok(count) => return Ok(count),
            Err(e) if e.kind() == ErrorKind::Interrupted => {}
            Err(_) => return Err(Failed),
        }
    }
    Err(Failed)
}

/// A source over a reader, as standard input. A read that is interrupted is tried again, at most 16 times in all. Each read that
/// fails is a fault.
#[derive(Drop)]
pub struct StdIn<R> {
    inner: R,
    /// The number of faults so far. It stands still at 2^64 - 1.
    faults: u64,
    ghost fits: { faults < 2 ^ 64 },
}

impl<R: Read> StdIn<R> {
    /// A source over `inner`, without faults.
    pub fn new(inner: R) -> Self {
        StdIn { inner, faults: 0 }
    }
}

impl<R: Read> Source for StdIn<R> {
    ghost left = { λ source. R.remaining source.inner };

    ghost faults = { λ source. source.faults };

    ghost counted = { λ source. source.fits };

    fn take(&mut self, buf: &mut [u8]) -> Result<usize, Failed> {
        match read_uninterrupted(&mut self.inner, buf) {
            Ok(count) => Ok(count),
            Err(Failed) => {
                self.faults = self.faults.saturating_add(1);
                Err(Failed)
            }
        }
    }
}

/// A sink over a writer, as standard output. A write that is interrupted is tried again, at most 16 times in all. Each write that
/// fails, or that takes no byte of some, is a fault.
#[derive(Drop)]
pub struct StdOut<W> {
    inner: W,
    /// The number of faults so far. It stands still at 2^64 - 1.
    faults: u64,
    ghost fits: { faults < 2 ^ 64 },
}

impl<W: Write> StdOut<W> {
    /// A sink over `inner`, without faults.
    pub fn new(inner: W) -> Self {
        StdOut { inner, faults: 0 }
    }
}

impl<W: Write> Sink for StdOut<W> {
    ghost held = { λ sink. W.contents sink.inner };

    ghost faults = { λ sink. sink.faults };

    ghost counted = { λ sink. sink.fits };

    fn put(&mut self, bytes: &[u8]) -> Result<usize, Failed> {
        match write_uninterrupted(&mut self.inner, bytes) {
            Ok(0) if !bytes.is_empty() => {
                self.faults = self.faults.saturating_add(1);
                Err(Failed)
            }
            Ok(count) => Ok(count),
            Err(Failed) => {
                self.faults = self.faults.saturating_add(1);
                Err(Failed)
            }
        }
    }
}
