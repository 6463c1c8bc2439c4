//! The items of a stream that comes in pieces.

ghost use Rattle.std.specs.Prelude.{◌≡◌, ◌≢◌, ◌↔◌, ◌≤◌, ◌++◌, [], IfOk, IfErr, IfSome, OnOk, OnErr, Ok, Err, None, drop, false, length};
ghost use Rattle.ferry_item.specs.Item.{is_healed, item_view};
ghost use Rattle.ferry_item.specs.Stream.{an_item, nothing_yet, a_fault, front_item};
ghost use Rattle.ferry_item.specs.Writing.{IsPackable, field_pairs};
ghost use Rattle.ferry_item.specs.declared.fault.ItemFault.{ItemFault};

use crate::fault::ItemFault;
use crate::front::item_at;
use crate::item::{ChunkRef, ChunkRefs, Item};
use crate::progress::{Progress, begun, behind, gone_on};
use std::alloc::{AllocError, Global};
use std::marker::Model;

/// A reader of the item stream of an archive, which comes in pieces that are cut anywhere.
///
/// Contracts see it as the bytes that were fed and not yet answered. What was answered is given back when a piece
/// comes, once it is half of what is kept: so at most one byte is moved for each byte that was answered.
///
/// Source: BorgBackup 1.2, Internals, "Data structures and file formats", Archives.
#[derive(Drop)]
pub struct ItemReader {
    bytes: Vec<u8>,
    /// Where the first byte stands that wasn't answered.
    at: usize,
    /// How far the item there was read, where `next` answered none.
    progress: Option<Progress>,
}

impl Model for ItemReader {
    ghost use Rattle.std.specs.Prelude.{ℕ, ◌≤◌, List, IfSome, drop, length};
    ghost use Rattle.ferry_item.specs.Progress.{IsAhead};

    ghost Value = { List ℕ };

    ghost view = { λ a. drop a.at a.bytes.items };

    ghost invariant = { λ a. (a.at ≤ length a.bytes.items)
        × IfSome a.progress (λ progress. IsAhead (drop a.at a.bytes.items) progress.seen progress.levels.items) };
}

impl ItemReader {
    /// A reader that was fed nothing. It takes its memory from `alloc` when it is fed.
    pub fn new(alloc: Global) -> ItemReader
        ensures bytes { result ≡ [] }
    {
        ItemReader {
            bytes: Vec::new(alloc),
            at: 0,
            progress: None,
        }
    }

    /// Takes the next piece of the stream, behind the bytes that it has.
    pub fn feed(&mut self, piece: &[u8]) -> Result<(), ItemFault>
        ensures ok { OnOk result (self.new ≡ self.old ++ piece.now) }
        ensures err { OnErr result (self.new ≡ self.old) }
        ensures memory { IfErr result (λ fault. fault ≡ ItemFault.Memory) }
    {
        self.give_back();
        Ok(self.bytes.extend_from_slice(piece)?)
    }

    /// Gives the answered bytes back where they are half of what is kept.
    fn give_back(&mut self)
        ensures { self.new ≡ self.old }
    {
        if self.at >= self.bytes.len() - self.at {
            drop_front(&mut self.bytes, self.at);
            self.at = 0;
        }
    }

    /// Answers the next item, and none where the bytes end before it does, no bytes included.
    ///
    /// A malformed item gives its fault now and at every later call. `Memory` may come at any call. After a fault the
    /// reader is as it was.
    pub fn next(&mut self) -> Result<Option<Item>, ItemFault>
        // The item stands in front, and the bytes behind it are left.
        ensures item { IfOk result (λ found. IfSome found (λ item.
            front_item self.old ≡ an_item (item_view item) self.new)) }
        ensures none { result ≡ Ok None → front_item self.old ≡ nothing_yet }
        ensures none_kept { result ≡ Ok None → self.new ≡ self.old }
        ensures fault { IfErr result (λ fault. fault ≢ ItemFault.Memory → front_item self.old ≡ a_fault fault) }
        ensures err { OnErr result (self.new ≡ self.old) }
        ensures rest { result ≢ Err ItemFault.Rest }
        // What is read can be written, and is read as the same item.
        ensures packable { IfOk result (λ found. IfSome found (λ item. IsPackable (item_view item))) }
        ensures whole { IfOk result (λ found. IfSome found (λ item. is_healed (field_pairs (item_view item)) ≡ false)) }
    {
        let alloc = *self.bytes.allocator();
        if let Some(progress) = self.progress.take() {
            let later = gone_on(alloc, progress, behind(self.bytes.as_slice(), self.at));
            if let Some(later) = later {
                self.progress = Some(later);
                return Ok(None);
            }
        }
        let Some((item, stop)) = item_at(alloc, self.bytes.as_slice(), self.at)? else {
            self.progress = begun(alloc, behind(self.bytes.as_slice(), self.at));
            return Ok(None);
        };
        self.at = stop;
        Ok(Some(item))
    }

    /// The chunks of the item that stands so many bytes behind those that were answered, where it has content, and how many bytes behind
    /// them it ends; none where no item stands whole there in the bytes that were fed, or it is malformed, or memory is refused. The reader
    /// stays where it is.
    pub fn item_ahead(&self, behind: usize) -> Option<(Option<ChunkRefs>, usize)> {
        let alloc = *self.bytes.allocator();
        let at = self.at.checked_add(behind)?;
        if at > self.bytes.len() {
            return None;
        }
        let Ok(Some((item, stop))) = item_at(alloc, self.bytes.as_slice(), at) else {
            return None;
        };
        let Item { fields: _, chunks } = item;
        Some((chunks, stop.checked_sub(self.at)?))
    }

    /// Ends the reading, once the stream has no more pieces and `next` answered none: no bytes may be left.
    pub fn finish(self) -> Result<(), ItemFault>
        requires ended { front_item self ≡ nothing_yet }
        ensures ok { (result ≡ Ok tt) ↔ (self ≡ []) }
        ensures rest { (result ≡ Err ItemFault.Rest) ↔ (self ≢ []) }
    {
        if self.at < self.bytes.len() {
            return Err(ItemFault::Rest);
        }
        Ok(())
    }
}

/// Gives the first `count` bytes back, by one move of the others within the same memory.
fn drop_front(bytes: &mut Vec<u8>, count: usize)
    requires { count ≤ length bytes.old.items }
    ensures { bytes.new.items ≡ drop count bytes.old.items }
{
    let len = bytes.len();
    bytes.as_mut_slice().copy_within(count..len, 0);
    bytes.truncate(len - count);
}
