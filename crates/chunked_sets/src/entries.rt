//! The iterator over entries in chunks.
ghost use Rattle.std.specs.Prelude.{◌≡◌, ◌<◌, ◌++◌, [], IfSome, IfNone, length};
ghost use Rattle.std.specs.Iterator.{YieldsFirstRef, item_count};
ghost use Rattle.chunked_sets.specs.Entries.{entries_left};

use rbac_sets::Entry;

/// The entries one by one, in their order.
#[derive(Drop)]
pub struct Entries<'a, K: Entry> {
    // The rest of a chunk, the chunks behind it, and entries behind these.
    pub(crate) chunk: &'a [K],
    pub(crate) chunks: &'a [Vec<K>],
    pub(crate) last: &'a [K],
}

impl<'a, K: Entry> Iterator for Entries<'a, K> {
    type Item = &'a K;

    ghost next_gives = { YieldsFirstRef entries_left };

    ghost remaining = { item_count entries_left };

    fn next(&mut self) -> Option<&'a K> {
        self.advance();
        let (first, others) = self.chunk.split_first()?;
        self.chunk = others;
        Some(first)
    }
}

impl<'a, K: Entry> Entries<'a, K> {
    // Goes on to the next chunk if nothing is left of this one, so that something is, unless there are no more entries.
    fn advance(&mut self)
        ensures same { entries_left self.new ≡ entries_left self.old }
        ensures end { self.new.chunk.now ≡ [] → entries_left self.old ≡ [] }
    {
        while self.chunk.is_empty() {
            match self.chunks.split_first() {
                Some((chunk, others)) => {
                    self.chunk = chunk;
                    self.chunks = others;
                }
                None => {
                    if self.last.is_empty() {
                        return;
                    }
                    self.chunk = self.last;
                    self.last = &self.last[..0];
                }
            }
        }
    }

    /// The next entries that lie in one piece of memory, in their order. `None` if there are no more.
    pub fn next_part(&mut self) -> Option<&'a [K]>
        ensures some { IfSome result (λ part. (entries_left self.old ≡ part.now ++ entries_left self.new) × (0 < length part.now)) }
        ensures none { IfNone result (entries_left self.old ≡ []) }
    {
        self.advance();
        if self.chunk.is_empty() {
            return None;
        }
        let part = self.chunk;
        self.chunk = &part[..0];
        Some(part)
    }
}
