ghost use Rattle.std.specs.Prelude.{◌≡◌, ◌≤◌, drop, Some, None, vec_len};
ghost use Rattle.std.proofs.Common.{lit<};

use crate::copy::copy_front;
use crate::error::Failed;
use crate::io::{Sink, Source};

/// A source over the bytes of a vector. It never fails.
#[derive(Drop)]
pub struct SteadySource {
    bytes: Vec<u8>,
    /// The index of the next byte.
    at: usize,
    ghost in_range: { at ≤ vec_len bytes },
}

impl SteadySource {
    /// A source at the first of `bytes`.
    pub fn new(bytes: Vec<u8>) -> Self
        ensures left { ⟦<SteadySource as Source>⟧.left result ≡ Some bytes.items }
    {
        SteadySource { bytes, at: 0 }
    }
}

impl Source for SteadySource {
    ghost left = { λ source. Some (drop source.at source.bytes.items) };

    ghost faults = { λ _. 0 };

    ghost counted = { λ _. lit< tt };

    fn take(&mut self, buf: &mut [u8]) -> Result<usize, Failed> {
        let count = copy_front(&self.bytes[self.at..], usize::MAX, buf);
        self.at += count;
        Ok(count)
    }
}

/// A sink that drops its bytes and does not tell them. It never fails.
#[derive(Clone, Copy, Debug)]
pub struct SteadySink;

impl Sink for SteadySink {
    ghost held = { λ _. None };

    ghost faults = { λ _. 0 };

    ghost counted = { λ _. lit< tt };

    fn put(&mut self, bytes: &[u8]) -> Result<usize, Failed> {
        Ok(bytes.len())
    }
}
