//! Sinks for bytes.
ghost use Rattle.std.specs.Prelude.{◌≡◌, ◌≤◌, ◌⊎◌, ℕ, List, [], ◌++◌, Option, length, IfOk, OnOk, OnErr};
ghost use Rattle.std.specs.Io.KnownBytes.{Appends, WriteAppends};
ghost use Rattle.rbac_sets.specs.Stream.{failures_after, idle_after, HasRisen, written_in_memory, failed_in_memory, writer_of, failed_writes};

use crate::source::Fault;
use std::alloc::Global;
use std::io;

/// A sink for bytes.
///
/// Contracts cover the bytes that were written if they are known, as in memory.
pub trait Sink {
    // The bytes that were written, if they are known.
    ghost written: { Self → Option (List ℕ) };

    // How many calls failed.
    ghost failed: { Self → ℕ };

    // How many calls accepted no byte of a nonempty piece, and did not fail. The count saturates.
    ghost idle: { Self → ℕ };

    /// Writes bytes from the front of `piece`, which may have any length, and returns how many.
    ///
    /// # Errors
    ///
    /// `Fault` if the write failed. Then no byte was accepted.
    fn write(&mut self, piece: &[u8]) -> Result<usize, Fault>
        ensures bound { IfOk result (λ count. count ≤ length piece.now) }
        ensures bytes { WriteAppends (written self.old) (written self.new) result piece.now }
        ensures failures { failed self.new ≡ failures_after (failed self.old) result }
        ensures idle { idle self.new ≡ idle_after (idle self.old) (length piece.now) result };

    /// How many calls of `write` failed. The count saturates.
    fn failures(&self) -> u64
        ensures { result ≡ failed self.now };
}

/// A sink that keeps the bytes in memory. A write fails if allocation failed.
#[derive(Drop)]
pub struct MemorySink {
    bytes: Vec<u8>,
    failures: u64,
}

impl MemorySink {
    /// A sink without bytes. It doesn't allocate yet.
    pub fn new(alloc: Global) -> MemorySink
        ensures bytes { written_in_memory result ≡ [] }
        ensures failures { failed_in_memory result ≡ 0 }
    {
        MemorySink {
            bytes: Vec::new(alloc),
            failures: 0,
        }
    }

    /// The bytes that were written.
    pub fn as_slice(&self) -> &[u8]
        ensures { result.now ≡ written_in_memory self.now }
    {
        &self.bytes
    }
}

impl Sink for MemorySink {
    ghost use Rattle.std.specs.Prelude.{Some};
    ghost use Rattle.rbac_sets.specs.Stream.{written_in_memory, failed_in_memory};

    ghost written = { λ s. Some (written_in_memory s) };

    ghost failed = { λ s. failed_in_memory s };

    ghost idle = { λ _. 0 };

    fn write(&mut self, piece: &[u8]) -> Result<usize, Fault> {
        match self.bytes.extend_from_slice(piece) {
            Ok(()) => Ok(piece.len()),
            Err(_) => {
                self.failures = self.failures.saturating_add(1);
                Err(Fault)
            }
        }
    }

    fn failures(&self) -> u64 {
        self.failures
    }
}

/// A sink over any writer of std.
///
/// A write that accepts no byte of a nonempty piece is a failure here, as in `write_all` of std.
#[derive(Drop)]
pub struct Writer<W> {
    inner: W,
    failures: u64,
}

impl<W: io::Write> Writer<W> {
    /// A sink that writes to `inner`, without failures so far.
    pub fn new(inner: W) -> Writer<W>
        ensures inner { writer_of result ≡ inner }
        ensures failures { failed_writes result ≡ 0 }
    {
        Writer { inner, failures: 0 }
    }
}

impl<W: io::Write> Sink for Writer<W> {
    ghost use Rattle.rbac_sets.specs.Stream.{writer_of, failed_writes};

    ghost written = { λ s. W.contents (writer_of s) };

    ghost failed = { λ s. failed_writes s };

    ghost idle = { λ _. 0 };

    fn write(&mut self, piece: &[u8]) -> Result<usize, Fault> {
        match self.inner.write(piece) {
            Ok(count) if count > 0 || piece.is_empty() => Ok(count),
            _ => {
                self.failures = self.failures.saturating_add(1);
                Err(Fault)
            }
        }
    }

    fn failures(&self) -> u64 {
        self.failures
    }
}

/// Writes the whole of `piece`, in as few writes as the sink allows.
///
/// # Errors
///
/// `Fault` if a write failed, or accepted no byte though there was one. Then only a part of the
/// piece was written, or nothing of it.
pub fn write_all<W: Sink>(sink: &mut W, piece: &[u8]) -> Result<(), Fault>
    ensures ok { OnOk result (Appends (W.written sink.old) (W.written sink.new) piece.now) }
    ensures part { OnErr result ((part rest : List ℕ) × (piece.now ≡ part ++ rest) × (1 ≤ length rest) × Appends (W.written sink.old) (W.written sink.new) part) }
    ensures failures { W.failed sink.old ≤ W.failed sink.new }
    ensures idle { W.idle sink.old ≤ W.idle sink.new }
    ensures cause { OnErr result (HasRisen (W.failed sink.old) (W.failed sink.new) ⊎ HasRisen (W.idle sink.old) (W.idle sink.new)) }
{
    let mut rest = piece;
    while !rest.is_empty() {
        match sink.write(rest) {
            Ok(0) | Err(_) => return Err(Fault),
            Ok(count) => rest = &rest[count..],
        }
    }
    Ok(())
}
