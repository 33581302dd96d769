//! Byte streams: sources and sinks, reading up to a bound, and writing all.

ghost use Rattle.std.specs.Prelude.{◌≡◌, ℕ, ◌^◌, ◌≤◌, ◌<◌, List, length, take, vec_len, IfOk, IfSome, OnOk, OnErr, IsErrOf};
ghost use Rattle.std.specs.Io.{ReadsAtMost, WritesAtMost};
ghost use Rattle.std.specs.Io.KnownBytes.{ReadConsumes, WriteAppends, Consumes, IsAtEnd, Appends};
ghost use Rattle.std.specs.declared.option.Option.{Option};
ghost use Rattle.rl_base.specs.Faults.{Rose};
ghost use Rattle.rl_base.specs.Pieces.{AppendsPrefix};

use crate::error::Failed;
use std::alloc::{AllocError, Global};

/// A stream that gives bytes in order.
pub trait Source {
    /// The bytes that are left to give; `None` if the source does not tell.
    ghost left: { Self → Option (List ℕ) };

    /// The number of faults so far. It never falls, and stands still at 2^64 - 1.
    ghost faults: { Self → ℕ };

    /// Fills a prefix of `buf` with the next bytes, and returns its length. If `buf` is not empty, 0 means the end. On
    /// `Failed` no byte was given, and a fault was counted.
    fn take(&mut self, buf: &mut [u8]) -> Result<usize, Failed>
        ensures bound { ReadsAtMost result buf.new }
        ensures bytes { ReadConsumes (left self.old) (left self.new) result buf.new }
        ensures monotone { faults self.old ≤ faults self.new }
        ensures cause { OnErr result (Rose (faults self.old) (faults self.new)) };

    /// The count of faults is a 64-bit number.
    ghost counted: { (source : Self) → faults source < 2 ^ 64 };
}

/// A stream that takes bytes in order.
pub trait Sink {
    /// The bytes that were put so far; `None` if the sink does not tell.
    ghost held: { Self → Option (List ℕ) };

    /// The number of faults so far. It never falls, and stands still at 2^64 - 1.
    ghost faults: { Self → ℕ };

    /// Appends a prefix of `bytes`, and returns its length: at least 1 if `bytes` is not empty. On `Failed` no byte was
    /// appended, and a fault was counted.
    fn put(&mut self, bytes: &[u8]) -> Result<usize, Failed>
        ensures bound { WritesAtMost result bytes.now }
        ensures progress { IfOk result (λ count. 0 < length bytes.now → 0 < count) }
        ensures bytes { WriteAppends (held self.old) (held self.new) result bytes.now }
        ensures monotone { faults self.old ≤ faults self.new }
        ensures cause { OnErr result (Rose (faults self.old) (faults self.new)) };

    /// The count of faults is a 64-bit number.
    ghost counted: { (sink : Self) → faults sink < 2 ^ 64 };
}

/// The most bytes that `read_up_to` asks of a source in one call: the default capacity of a pipe on Linux.
const PIECE: usize = 65536;

/// An error of `read_up_to`.
#[derive(Clone, Copy, Debug, PartialEq, Eq)]
pub enum ReadError {
    /// The source failed.
    Fault,
    /// An allocation failed.
    OutOfMemory,
}

impl From<AllocError> for ReadError {
    ghost use Rattle.rl_base.specs.declared.io.ReadError.TheVariants.{OutOfMemory};
    ghost use Rattle.std.specs.Prelude.{◌≡◌};

    ghost from_gives = { λ _ e. e ≡ OutOfMemory };

    fn from(_e: AllocError) -> ReadError {
        ReadError::OutOfMemory
    }
}

/// Makes room behind the first `filled` bytes: where they are all, appends zeros, at most `PIECE`, and up to a length of `most`.
/// So each byte of room is zeroed once, however few bytes a source gives a call.
fn make_room(bytes: &mut Vec<u8>, filled: usize, most: usize) -> Result<(), AllocError>
    requires filled { filled ≤ vec_len bytes.old }
    requires more { filled < most }
    requires within { vec_len bytes.old ≤ most }
    ensures kept { take filled bytes.new.items ≡ take filled bytes.old.items }
    ensures room { OnOk result (filled < vec_len bytes.new) }
    ensures within { vec_len bytes.new ≤ most }
{
    if filled < bytes.len() {
        return Ok(());
    }
    bytes.resize(filled + PIECE.min(most - filled), 0)
}

/// Reads until the source ends or `most` bytes are there. The bytes go straight into the vector that is returned. On an error the
/// bytes that were read are dropped.
#[tactic(auto, using(crate::proofs::KnownBytes::first_read))]
pub fn read_up_to<S: Source>(
    alloc: Global,
    source: &mut S,
    most: usize,
) -> Result<Vec<u8>, ReadError>
    ensures bytes { IfOk result (λ read. Consumes (S.left source.old) (S.left source.new) read.items) }
    ensures within { IfOk result (λ read. vec_len read ≤ most) }
    ensures whole { IfOk result (λ read. vec_len read < most → IsAtEnd (S.left source.new)) }
    ensures exact { IfOk result (λ read. IfSome (S.left source.old) (λ left. read.items ≡ take most left)) }
    ensures monotone { S.faults source.old ≤ S.faults source.new }
    ensures cause { IsErrOf result ReadError.Fault → Rose (S.faults source.old) (S.faults source.new) }
{
    let mut bytes = Vec::new(alloc);
    let mut filled = 0;
    'reading: while filled < most {
        make_room(&mut bytes, filled, most)?;
        let count = match source.take(&mut bytes[filled..]) {
            Ok(count) => count,
            Err(Failed) => return Err(ReadError::Fault),
        };
        if count == 0 {
            bytes.truncate(filled);
            return Ok(bytes);
        }
        filled += count;
    }
    bytes.truncate(filled);
    Ok(bytes)
}

/// Writes all of `bytes`, in as many calls of `put` as it takes. On `Failed` a prefix of them was written.
pub fn write_all<K: Sink>(sink: &mut K, bytes: &[u8]) -> Result<(), Failed>
    ensures ok { OnOk result (Appends (K.held sink.old) (K.held sink.new) bytes.now) }
    ensures err { OnErr result (AppendsPrefix (K.held sink.old) (K.held sink.new) bytes.now) }
    ensures monotone { K.faults sink.old ≤ K.faults sink.new }
    ensures cause { OnErr result (Rose (K.faults sink.old) (K.faults sink.new)) }
{
    let mut written = 0;
    'writing: while written < bytes.len() {
        written += sink.put(&bytes[written..])?;
    }
    Ok(())
}
