//! A file in memory: a disk for an office that is lost when the program ends.
ghost use Rattle.std.specs.Prelude.{◌≡◌, ◌+◌, ◌<◌, ◌≤◌, [], length, take, drop, true, false, refl, is_ok, OnOk, OnErr};
ghost use Rattle.sqlite_disk.specs.Disk.{CountsFault, Cut, Holds, Torn};
ghost use Rattle.sqlite_disk.specs.Refusal.{finds_no_room};

use sqlite_disk::{Disk, Tally};
use std::alloc::{AllocError, Global};
use std::io;

/// A file whose bytes are in memory. What was written is read back, and a crash leaves just that, so
/// a sync has nothing to do.
///
/// A call fails if an allocation failed, or if a read goes past the end. That is an I/O error of the
/// store, and the office answers `Store`.
#[derive(Drop)]
pub struct MemoryFile {
    /// The content of the file.
    bytes: Vec<u8>,
    /// How many allocations for it failed. The count saturates.
    faults: u64,
}

impl MemoryFile {
    /// An empty file.
    pub(crate) fn new(alloc: Global) -> MemoryFile
        ensures empty { result.bytes.items ≡ [] }
    {
        MemoryFile {
            bytes: Vec::new(alloc),
            faults: 0,
        }
    }
}

impl Disk for MemoryFile {
    // A read returns these bytes, now and after a crash.
    ghost seen = { λ file. file.bytes.items };

    ghost may_leave = { λ file left. left ≡ file.bytes.items };

    ghost seen_may_stay = { λ _. refl };

    // No sync fails.
    ghost is_usable = { λ _. true };

    // An allocation that failed is neither damage nor a full disk.
    ghost faults = { λ file. file.faults };

    ghost tally_of = { λ _. record { caught = 0; refused = 0 } };

    // No answer is wrong, so no check of one needs a secret key.
    ghost is_clean = { λ _. true };

    ghost key_of = { λ _. 0 };

    ghost is_fair = { λ _ _. true };

    ghost fair_if_clean = { λ _ _ _. refl };

    fn mixes(&self) -> bool {
        false
    }

    fn key(&self) -> u64 {
        0
    }

    fn tally(&self) -> Tally {
        Tally {
            caught: 0,
            refused: 0,
        }
    }

    fn may_be_used(&self) -> bool {
        true
    }

    fn len(&mut self) -> io::Result<usize> {
        Ok(self.bytes.len())
    }

    fn read_at(&mut self, at: usize, buf: &mut [u8]) -> io::Result<()> {
        copy_out(&self.bytes, at, buf)
    }

    // The expected digest is that of the bytes at this place, so the check can't fail.
    fn read_checked(&mut self, _key: u64, _want: u64, at: usize, buf: &mut [u8]) -> io::Result<()> {
        copy_out(&self.bytes, at, buf)
    }

    fn write_at(&mut self, at: usize, bytes: &[u8]) -> io::Result<()> {
        counted(overwrite(&mut self.bytes, at, bytes), &mut self.faults)
    }

    fn set_len(&mut self, len: usize) -> io::Result<()> {
        counted(resize(&mut self.bytes, len), &mut self.faults)
    }

    fn sync(&mut self) -> io::Result<()> {
        Ok(())
    }
}

// Fills `buf` with the bytes of the file from this place on. A read past the end is an error.
fn copy_out(file: &[u8], at: usize, buf: &mut [u8]) -> io::Result<()>
    ensures ok { OnOk result (buf.new ≡ take (length buf.old) (drop at file.now)) }
    ensures within { OnOk result (at + length buf.old ≤ length file.now) }
    ensures err { OnErr result (length file.now < at + length buf.old) }
{
    if at > file.len() || buf.len() > file.len() - at {
        return Err(io::ErrorKind::UnexpectedEof.into());
    }
    buf.copy_from_slice(&file[at..at + buf.len()]);
    Ok(())
}

// Writes the bytes from this place on. If they reach past the end, the file grows.
fn overwrite(file: &mut Vec<u8>, at: usize, bytes: &[u8]) -> Result<(), AllocError>
    ensures written { OnOk result (Holds file.new.items at bytes.now) }
    ensures others { Torn at (length bytes.now) file.old.items file.new.items }
{
    let end = at.checked_add(bytes.len()).ok_or(AllocError)?;
    if end > file.len() {
        resize(file, end)?;
    }
    file[at..end].copy_from_slice(bytes);
    Ok(())
}

// Sets the length of the file. If it grows, the new bytes are zero.
fn resize(file: &mut Vec<u8>, len: usize) -> Result<(), AllocError>
    ensures len { OnOk result (length file.new.items ≡ len) }
    ensures others { Cut len file.old.items file.new.items }
{
    file.resize(len, 0)
}

// Reports an allocation that failed as an I/O error, and counts it.
fn counted(done: Result<(), AllocError>, faults: &mut u64) -> io::Result<()>
    ensures variant { is_ok result ≡ is_ok done }
    ensures kind { finds_no_room result ≡ false }
    ensures faults { CountsFault result faults.old faults.new }
{
    match done {
        Ok(()) => Ok(()),
        Err(_) => {
            *faults = faults.saturating_add(1);
            Err(io::ErrorKind::OutOfMemory.into())
        }
    }
}
