//! The contents that a repository keeps.
ghost use Rattle.std.specs.Prelude.{◌≡◌, ◌≤◌, [], length, None, IfOk, IfSome, OnOk, OnErr, option_copied};
ghost use Rattle.std.specs.List.{AllByRecursion};
ghost use Rattle.ferry_disk.specs.Files.{Files};
ghost use Rattle.ferry_log.specs.State.{LogState};
ghost use Rattle.ferry_mac.specs.declared.keys.Keys.{Keys};
ghost use Rattle.ferry_repo.specs.Cached.{content_in, used};
ghost use Rattle.ferry_repo.specs.Objects.{HoldsChunk};

use ferry_base::{Bytes, Id};
use ferry_item::ChunkRef;
use lru::LruCache;
use std::alloc::{AllocError, Global};
use std::cmp::min;
use std::marker::Model;
use std::num::NonZeroUsize;

/// How many contents are kept at most. A content may have 20 MiB.
pub(crate) const LIMIT: usize = 28;

/// The contents that were used last, with their ids. Contracts see them as a list, the latest first.
#[derive(Drop)]
pub(crate) struct Cache {
    alloc: Global,
    entries: LruCache<Id, Bytes>,
}

impl Model for Cache {
    ghost use Rattle.std.specs.Prelude.{◌≡◌};
    ghost use Rattle.ferry_repo.specs.Cached.{Opened};

    ghost Value = { Opened };

    ghost view = { λ c. c.entries.entries };

    ghost invariant = { λ c. c.entries.cap ≡ 28 };
}

impl Cache {
    /// No contents.
    pub(crate) fn new(alloc: Global) -> Result<Cache, AllocError>
        ensures empty { IfOk result (λ cache. cache ≡ []) }
    {
        let entries = LruCache::new(alloc, NonZeroUsize::new(LIMIT).unwrap())?;
        Ok(Cache { alloc, entries })
    }

    /// The content of an id, where it is kept.
    pub(crate) fn get(&self, id: &Id) -> Option<&[u8]>
        ensures content { option_copied result ≡ content_in id.now self.now }
    {
        let content = self.entries.peek(id)?;
        Some(content.as_slice())
    }

    /// Keeps the content of an id, or finds it kept, and sets it in front of the others. At the limit the last one goes.
    pub(crate) fn keep(&mut self, id: &Id, content: &[u8]) -> Result<(), AllocError>
        requires same { IfSome (content_in id.now self.old) (λ kept. kept ≡ content.now) }
        ensures ok { OnOk result (self.new ≡ used id.now content.now self.old) }
        ensures err { OnErr result (self.new ≡ self.old) }
    {
        // The contract of `len` says that the ids are distinct.
        let _count = self.entries.len();
        if self.entries.promote(id) {
            return Ok(());
        }
        let copy = Vec::from_slice(self.alloc, content)?;
        self.entries.put(*id, Bytes::new(copy))?;
        Ok(())
    }

    /// Keeps a content that isn't kept, in front of the others. At the limit the last one goes.
    pub(crate) fn keep_new(&mut self, id: &Id, content: Vec<u8>) -> Result<(), AllocError>
        requires new { content_in id.now self.old ≡ None }
        ensures ok { OnOk result (self.new ≡ used id.now content.items self.old) }
        ensures err { OnErr result (self.new ≡ self.old) }
    {
        // The contract of `len` says that the ids are distinct.
        let _count = self.entries.len();
        self.entries.put(*id, Bytes::new(content))?;
        Ok(())
    }

    /// How many contents are kept.
    pub(crate) fn count(&self) -> usize
        ensures count { result ≡ length self.now }
        ensures few { result ≤ 28 }
    {
        self.entries.len()
    }

    /// How many contents stand in front, the one that was used last first, up to the last that is of one of these chunks.
    pub(crate) fn reach(&self, chunks: &[ChunkRef]) -> usize {
        let mut reach = 0;
        for (place, (id, _)) in self.entries.iter().enumerate() {
            if names(chunks, id) {
                reach = place + 1;
            }
        }
        reach
    }

    /// How many bytes all contents have.
    pub(crate) fn bytes(&self) -> u64 {
        let mut bytes = 0u64;
        for (_, content) in self.entries.iter() {
            bytes = bytes.saturating_add(content.as_slice().len() as u64);
        }
        bytes
    }

    /// Lets all contents go but so many that were used last.
    pub(crate) fn shorten(&mut self, staying: usize)
        ensures holds { (files : Files) (log : LogState) (keys : Keys)
            → AllByRecursion (λ c. HoldsChunk files log keys c.0 c.1) self.old
            → AllByRecursion (λ c. HoldsChunk files log keys c.0 c.1) self.new }
    {
        match NonZeroUsize::new(min(staying, LIMIT)) {
            Some(count) => {
                self.entries.resize(count);
                self.entries.resize(NonZeroUsize::new(LIMIT).unwrap());
            }
            None => self.entries.clear(),
        }
    }
}

/// Whether one of these chunks has an id.
fn names(chunks: &[ChunkRef], id: &Id) -> bool {
    chunks.iter().any(|chunk| chunk.id == *id)
}
