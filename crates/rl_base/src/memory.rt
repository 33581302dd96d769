ghost use Rattle.std.specs.Prelude.{◌≡◌, ◌↔◌, ◌⊎◌, ◌+◌, ◌-◌, ◌^◌, ◌≤◌, ◌<◌, [], drop, length, min, Some, vec_len, vec_capacity, IfOk, IsErr, OnErr};
ghost use Rattle.std.specs.List.{Contains};
ghost use Rattle.std.specs.Io.{ReadsAtMost, WritesAtMost};
ghost use Rattle.std.specs.Io.KnownBytes.{ReadConsumes, WriteAppends};
ghost use Rattle.rl_base.specs.Faults.{Rose, next_count};

use crate::copy::copy_front;
use crate::error::Failed;
use crate::io::{Sink, Source};
use std::alloc::Global;

/// A source over the bytes of a vector. It gives at most `most` bytes a call, and the calls that `fails` lists fail.
/// Calls are numbered from 0.
#[derive(Drop)]
pub struct MemSource {
    bytes: Vec<u8>,
    /// The index of the next byte.
    at: usize,
    /// The most bytes that one call gives.
    most: usize,
    /// The numbers of the calls that fail.
    fails: Vec<u64>,
    /// The number of the next call. It stands still at 2^64 - 1.
    calls: u64,
    /// The number of calls that failed. It stands still at 2^64 - 1.
    faults: u64,
    ghost some_each: { 0 < most },
    ghost fits: { faults < 2 ^ 64 },
    ghost in_range: { at ≤ vec_len bytes },
}

impl MemSource {
    /// A source at the first of `bytes`, before its first call.
    pub fn new(bytes: Vec<u8>, most: usize, fails: Vec<u64>) -> Self
        requires { 0 < most }
        ensures most { result.most ≡ most }
        ensures fails { result.fails ≡ fails }
        ensures calls { result.calls ≡ 0 }
        ensures left { ⟦<MemSource as Source>⟧.left result ≡ Some bytes.items }
        ensures faults { ⟦<MemSource as Source>⟧.faults result ≡ 0 }
    {
        MemSource {
            bytes,
            at: 0,
            most,
            fails,
            calls: 0,
            faults: 0,
        }
    }
}

impl Source for MemSource {
    ghost left = { λ source. Some (drop source.at source.bytes.items) };

    ghost faults = { λ source. source.faults };

    ghost counted = { λ source. source.fits };

    fn take(&mut self, buf: &mut [u8]) -> Result<usize, Failed>
        ensures bound { ReadsAtMost result buf.new }
        ensures bytes { ReadConsumes (⟦<MemSource as Source>⟧.left self.old) (⟦<MemSource as Source>⟧.left self.new) result buf.new }
        ensures monotone { self.old.faults ≤ self.new.faults }
        ensures cause { OnErr result (Rose self.old.faults self.new.faults) }
        ensures most { IfOk result (λ count. count ≤ self.old.most) }
        ensures fails { IsErr result ↔ Contains self.old.fails.items self.old.calls }
        ensures calls { self.new.calls ≡ next_count self.old.calls }
        ensures keeps_most { self.new.most ≡ self.old.most }
        ensures keeps_fails { self.new.fails ≡ self.old.fails }
    {
        let call = self.calls;
        self.calls = call.saturating_add(1);
        if self.fails.contains(&call) {
            self.faults = self.faults.saturating_add(1);
            return Err(Failed);
        }
        let count = copy_front(&self.bytes[self.at..], self.most, buf);
        self.at += count;
        Ok(count)
    }
}

/// A sink that keeps its bytes. It takes at most `most` bytes a call, and the calls that `fails` lists fail. Calls are
/// numbered from 0. An allocation that fails is a fault too.
#[derive(Drop)]
pub struct MemSink {
    bytes: Vec<u8>,
    /// The most bytes that one call takes.
    most: usize,
    /// The numbers of the calls that fail.
    fails: Vec<u64>,
    /// The number of the next call. It stands still at 2^64 - 1.
    calls: u64,
    /// The number of calls that failed. It stands still at 2^64 - 1.
    faults: u64,
    ghost some_each: { 0 < most },
    ghost fits: { faults < 2 ^ 64 },
}

impl MemSink {
    /// An empty sink, before its first call. It takes no memory.
    pub fn new(alloc: Global, most: usize, fails: Vec<u64>) -> Self
        requires { 0 < most }
        ensures most { result.most ≡ most }
        ensures fails { result.fails ≡ fails }
        ensures calls { result.calls ≡ 0 }
        ensures held { ⟦<MemSink as Sink>⟧.held result ≡ Some [] }
        ensures faults { ⟦<MemSink as Sink>⟧.faults result ≡ 0 }
    {
        MemSink {
            bytes: Vec::new(alloc),
            most,
            fails,
            calls: 0,
            faults: 0,
        }
    }

    /// The bytes that were put so far.
    pub fn held(&self) -> &[u8]
        ensures { ⟦<MemSink as Sink>⟧.held self.now ≡ Some result.now }
    {
        self.bytes.as_slice()
    }
}

impl Sink for MemSink {
    ghost held = { λ sink. Some sink.bytes.items };

    ghost faults = { λ sink. sink.faults };

    ghost counted = { λ sink. sink.fits };

    fn put(&mut self, bytes: &[u8]) -> Result<usize, Failed>
        ensures bound { WritesAtMost result bytes.now }
        ensures progress { IfOk result (λ count. 0 < length bytes.now → 0 < count) }
        ensures bytes { WriteAppends (⟦<MemSink as Sink>⟧.held self.old) (⟦<MemSink as Sink>⟧.held self.new) result bytes.now }
        ensures monotone { self.old.faults ≤ self.new.faults }
        ensures cause { OnErr result (Rose self.old.faults self.new.faults) }
        ensures most { IfOk result (λ count. count ≤ self.old.most) }
        ensures fails { Contains self.old.fails.items self.old.calls → IsErr result }
        ensures refused { OnErr result
            (Contains self.old.fails.items self.old.calls
            ⊎ vec_capacity self.old.bytes < vec_len self.old.bytes + min (length bytes.now) self.old.most) }
        ensures calls { self.new.calls ≡ next_count self.old.calls }
        ensures keeps_most { self.new.most ≡ self.old.most }
        ensures keeps_fails { self.new.fails ≡ self.old.fails }
    {
        let call = self.calls;
        self.calls = call.saturating_add(1);
        if self.fails.contains(&call) {
            self.faults = self.faults.saturating_add(1);
            return Err(Failed);
        }
        let count = bytes.len().min(self.most);
        match self.bytes.extend_from_slice(&bytes[..count]) {
            Ok(()) => Ok(count),
            Err(_) => {
                self.faults = self.faults.saturating_add(1);
                Err(Failed)
            }
        }
    }
}
