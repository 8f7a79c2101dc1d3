//! The body of a request.
ghost use Rattle.std.specs.Prelude.{◌≡◌, ◌≤◌, ◌<◌, ℕ, List, length, IfErr, IfOk, OnErr, OnOk};
ghost use Rattle.std.specs.Io.KnownBytes.{Consumes, IsAtEnd};
ghost use Rattle.rbac_sets.specs.Stream.{HasRisen};

use crate::ReadError;
use rbac_sets::Source;
use std::alloc::Global;

// The most bytes of one read.
const PIECE: usize = 8192;

/// Reads `count` bytes, or all bytes of the source if there are fewer, and none past them. It allocates for
/// the bytes that arrive and one piece more, and not for those that were announced.
///
/// # Errors
///
/// `Fault` if a read of the source failed, and `Memory` if allocation failed. Fewer than `count` bytes were
/// read then.
pub fn read_bytes<R: Source>(
    alloc: Global,
    source: &mut R,
    count: usize,
) -> Result<Vec<u8>, ReadError>
    ensures reads { IfOk result (λ bytes. Consumes (R.remaining source.old) (R.remaining source.new) bytes.items) }
    ensures within { IfOk result (λ bytes. length bytes.items ≤ count) }
    ensures end { IfOk result (λ bytes. length bytes.items < count → IsAtEnd (R.remaining source.new)) }
    ensures stops { OnErr result ((taken : List ℕ) × Consumes (R.remaining source.old) (R.remaining source.new) taken × (length taken < count)) }
    ensures steady { OnOk result (R.failed source.new ≡ R.failed source.old) }
    ensures fault { IfErr result (λ why. why ≡ ReadError.Fault → HasRisen (R.failed source.old) (R.failed source.new)) }
    ensures memory { IfErr result (λ why. why ≡ ReadError.Memory → R.failed source.new ≡ R.failed source.old) }
{
    let mut piece = [0u8; PIECE];
    let mut bytes = Vec::new(alloc);
    while bytes.len() < count {
        let most = PIECE.min(count - bytes.len());
        bytes.reserve(most)?;
        let taken = source.read(&mut piece[..most])?;
        if taken == 0 {
            return Ok(bytes);
        }
        bytes.extend_from_slice(&piece[..taken])?;
    }
    Ok(bytes)
}
