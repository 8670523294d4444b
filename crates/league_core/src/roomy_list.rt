//! A list for callers that may not fail: room is taken beforehand, and what is put in later needs
//! no memory.
//!
//! Contracts see the items and the room, as `RoomyListView` of `specs/inside/Rooms.antt`. A type
//! that keeps such a list may say in its own invariant how much room it always has.

ghost use Rattle.std.specs.Prelude.{◌≡◌, ◌<◌, ◌≤◌, ◌+◌, [], ◌∷◌, ◌++◌, length, IsOk, OnOk, OnErr};
ghost use Rattle.std.specs.Prelude.{slice_index_or, slice_set};
ghost use Rattle.std.specs.List.{insert, remove};

use crate::memory::OutOfMemory;
use std::alloc::Global;
use std::marker::Model;
use std::mem;

/// A list that knows how many more items it has room for.
#[derive(Drop)]
pub struct RoomyList<T> {
    items: Vec<T>,
}

impl<T> Model for RoomyList<T> {
    ghost use Rattle.league_core.specs.inside.Rooms.{RoomyListView};

    ghost Value = { RoomyListView T };

    ghost use Rattle.std.specs.Prelude.{◌-◌, vec_len, vec_capacity};

    ghost view = { λ list.
        record { items = list.items.items; room = vec_capacity list.items - vec_len list.items } };
}

impl<T> RoomyList<T> {
    /// The empty list, without room. It takes no memory.
    pub fn new(alloc: Global) -> RoomyList<T>
        ensures { result.items ≡ [] }
    {
        RoomyList {
            items: Vec::new(alloc),
        }
    }

    /// The items from the first to the last, which is the one that `pop` takes.
    pub fn as_slice(&self) -> &[T]
        ensures { result.now ≡ self.now.items }
    {
        self.items.as_slice()
    }

    /// How many items it has; free room does not count.
    pub fn len(&self) -> usize
        ensures { result ≡ length self.now.items }
    {
        self.items.len()
    }

    /// How many more items can be put in without taking memory.
    pub fn room(&self) -> usize
        ensures { result ≡ self.now.room }
    {
        self.items.capacity() - self.items.len()
    }

    /// Takes room for so many more items. After a refusal the list is as before.
    pub fn reserve(&mut self, more: usize) -> Result<(), OutOfMemory>
        ensures items { self.new.items ≡ self.old.items }
        ensures ok { OnOk result (more ≤ self.new.room) }
        ensures kept { self.old.room ≤ self.new.room }
        ensures err { OnErr result (self.new ≡ self.old) }
        ensures spared { more ≤ self.old.room → IsOk result }
    {
        self.items.reserve(more)?;
        Ok(())
    }

    /// Adds an item at the end. It takes no memory.
    pub fn push(&mut self, item: T)
        requires room { 0 < self.old.room }
        ensures items { self.new.items ≡ self.old.items ++ item ∷ [] }
        ensures room { self.new.room + 1 ≡ self.old.room }
    {
        self.items.push_reserved(item);
    }

    /// Takes the last item off a list that has one; its place is room again.
    pub fn pop(&mut self) -> T
        requires some { 0 < length self.old.items }
        ensures items { self.old.items ≡ self.new.items ++ result ∷ [] }
        ensures room { self.new.room ≡ self.old.room + 1 }
    {
        self.items.take_last()
    }

    /// Puts an item at a place, from 0 to after the last one, and moves those from there on up by
    /// one. It takes no memory.
    pub fn insert(&mut self, index: usize, item: T)
    where
        T: Drop,
        requires room { 0 < self.old.room }
        requires in_range { index ≤ length self.old.items }
        ensures items { self.new.items ≡ insert self.old.items index item }
        ensures room { self.new.room + 1 ≡ self.old.room }
    {
        let _put = self.items.insert(index, item);
    }

    /// Takes the item off a place, from 0, and moves those after it down by one; the list has room
    /// for one more.
    pub fn remove(&mut self, index: usize) -> T
        requires in_range { index < length self.old.items }
        ensures item { result ≡ slice_index_or self.old.items index result }
        ensures items { self.new.items ≡ remove self.old.items index }
        ensures room { self.new.room ≡ self.old.room + 1 }
    {
        self.items.remove(index)
    }

    /// Puts an item at a place, from 0, instead of the one there, which is handed back.
    pub fn replace(&mut self, index: usize, item: T) -> T
        requires in_range { index < length self.old.items }
        ensures item { result ≡ slice_index_or self.old.items index result }
        ensures items { self.new.items ≡ slice_set self.old.items index item }
        ensures room { self.new.room ≡ self.old.room }
    {
        mem::replace(&mut self.items[index], item)
    }
}
