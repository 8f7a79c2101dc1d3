//! Sources of bytes.
ghost use Rattle.std.specs.Prelude.{◌≡◌, ◌≤◌, ◌<◌, ℕ, List, Option, length, IfOk};
ghost use Rattle.std.specs.Io.KnownBytes.{ReadConsumes};
ghost use Rattle.rbac_sets.specs.Stream.{failures_after, one_more, reader_of, failed_reads, reads_of_reader};

use std::io::{self, ErrorKind};
use thiserror::Error;

/// A read or a write failed. The cause is not reported: `failures` of the source or sink counts it.
#[derive(Clone, Copy, Debug, PartialEq, Eq, Error)]
#[error("a read or a write failed")]
pub struct Fault;

/// A source of bytes.
///
/// Contracts cover the remaining bytes if they are known, as in memory. Of a file or a socket they
/// state only that bytes that were read no longer remain.
pub trait Source {
    // The remaining bytes, if they are known.
    ghost remaining: { Self → Option (List ℕ) };

    // The number of reads, including failed ones. The count saturates.
    ghost reads: { Self → ℕ };

    // How many of them failed.
    ghost failed: { Self → ℕ };

    /// Reads into the front of `buffer`, which may have any length, and returns how many bytes were
    /// read: 0 only at the end, or if the buffer is empty.
    ///
    /// # Errors
    ///
    /// `Fault` if the read failed. Then no byte was consumed.
    fn read(&mut self, buffer: &mut [u8]) -> Result<usize, Fault>
        ensures bound { IfOk result (λ count. count ≤ length buffer.new) }
        ensures bytes { ReadConsumes (remaining self.old) (remaining self.new) result buffer.new }
        ensures reads { reads self.new ≡ one_more (reads self.old) }
        ensures failures { failed self.new ≡ failures_after (failed self.old) result };

    /// How many calls of `read` failed. The count saturates.
    fn failures(&self) -> u64
        ensures { result ≡ failed self.now };
}

/// A source over bytes in memory. No read of it fails.
#[derive(Drop)]
pub struct MemorySource<'a> {
    bytes: &'a [u8],
    reads: u64,
}

impl<'a> MemorySource<'a> {
    ghost use Rattle.rbac_sets.specs.Stream.{left_in_memory, reads_of_memory};

    /// A source that returns these bytes, from the first to the last.
    pub fn new(bytes: &'a [u8]) -> MemorySource<'a>
        ensures bytes { left_in_memory result ≡ bytes.now }
        ensures reads { reads_of_memory result ≡ 0 }
    {
        MemorySource { bytes, reads: 0 }
    }
}

impl Source for MemorySource<'_> {
    ghost use Rattle.std.specs.Prelude.{Some};
    ghost use Rattle.rbac_sets.specs.Stream.{left_in_memory, reads_of_memory};

    ghost remaining = { λ s. Some (left_in_memory s) };

    ghost reads = { λ s. reads_of_memory s };

    ghost failed = { λ _. 0 };

    fn read(&mut self, buffer: &mut [u8]) -> Result<usize, Fault> {
        self.reads = self.reads.saturating_add(1);
        let count = buffer.len().min(self.bytes.len());
        let (front, back) = self.bytes.split_at(count);
        buffer[..count].copy_from_slice(front);
        self.bytes = back;
        Ok(count)
    }

    fn failures(&self) -> u64 {
        0
    }
}

/// The most attempts at one read of a reader, if a signal interrupts each of them.
const MOST_TRIES: u32 = 1_000_000_000;

/// A source over any reader of std. A read that a signal interrupts is retried.
#[derive(Drop)]
pub struct Reader<R> {
    inner: R,
    reads: u64,
    failures: u64,
}

impl<R: io::Read> Reader<R> {
    /// A source that reads from `inner`, without reads so far.
    pub fn new(inner: R) -> Reader<R>
        ensures inner { reader_of result ≡ inner }
        ensures reads { reads_of_reader result ≡ 0 }
        ensures failures { failed_reads result ≡ 0 }
    {
        Reader {
            inner,
            reads: 0,
            failures: 0,
        }
    }
}

impl<R: io::Read> Source for Reader<R> {
    ghost use Rattle.rbac_sets.specs.Stream.{reader_of, failed_reads, reads_of_reader};

    ghost remaining = { λ s. R.remaining (reader_of s) };

    ghost reads = { λ s. reads_of_reader s };

    ghost failed = { λ s. failed_reads s };

    fn read(&mut self, buffer: &mut [u8]) -> Result<usize, Fault> {
        self.reads = self.reads.saturating_add(1);
        for _ in 0..MOST_TRIES {
            match self.inner.read(buffer) {
                Ok(count) => return Ok(count),
                Err(error) if error.kind() == ErrorKind::Interrupted => {}
                Err(_) => break,
            }
        }
        self.failures = self.failures.saturating_add(1);
        Err(Fault)
    }

    fn failures(&self) -> u64 {
        self.failures
    }
}
