//! A list in memory that is lent.
ghost use Rattle.std.specs.Prelude.{◌≡◌, ◌+◌, ◌≤◌, ◌<◌, [], ◌∷◌, ◌++◌, length, take, slice_set, OnOk, OnErr, IsOk};

use std::alloc::AllocError;
use std::marker::Model;

/// A list in memory that is lent: its elements are the first `len` of `room`, or all of them. Whoever is lent a part of `room` for writing
/// may leave anything there, so no invariant ties `len` to it.
#[derive(Drop)]
pub struct List<'a, T> {
    room: &'a mut [T],
    len: usize,
}

impl<'a, T> Model for List<'a, T> {
    ghost use Rattle.std.specs.Prelude.{◌≡◌, ◌≤◌, length, take};
    ghost use Rattle.notation.specs.List.{Listed, listed_code};

    ghost Value = { Listed T };

    ghost coded = { listed_code T.code };

    ghost view = { λ l. record { items = take l.len l.room.now; room = length l.room.now } };
}

impl<'a, T> List<'a, T> {
    /// Returns an empty list. It has room for as many elements as `room` has.
    pub fn new(room: &'a mut [T]) -> List<'a, T>
        ensures items { result.items ≡ [] }
        ensures room { result.room ≡ length room.old }
    {
        List { room, len: 0 }
    }

    /// Returns how many elements there are.
    pub fn len(&self) -> usize
        ensures len { result ≡ length self.now.items }
        ensures fits { length self.now.items ≤ self.now.room }
    {
        self.room.len().min(self.len)
    }

    /// Returns how many elements there is room for.
    pub fn capacity(&self) -> usize
        ensures { result ≡ self.now.room }
    {
        self.room.len()
    }

    /// Returns the elements.
    pub fn as_slice(&self) -> &[T]
        ensures { result.now ≡ self.now.items }
    {
        &self.room[..self.len.min(self.room.len())]
    }

    /// Leaves no element.
    pub fn clear(&mut self)
        ensures items { self.new.items ≡ [] }
        ensures room { self.new.room ≡ self.old.room }
    {
        self.len = 0;
    }

    // Returns whether there is room for n elements in all.
    pub(crate) fn fits(&self, n: usize) -> bool {
        n <= self.room.len()
    }

    /// Makes the list `len` elements long, or as long as its memory: past its elements come those that the memory has.
    pub fn set_len(&mut self, len: usize)
        ensures items { len ≤ length self.old.items → self.new.items ≡ take len self.old.items }
        ensures room { self.new.room ≡ self.old.room }
    {
        self.len = len;
    }

    /// Returns the first n elements for writing, or all. What is written is the caller's: the contract states what is lent.
    pub fn slice_mut(&mut self, n: usize) -> &mut [T]
        ensures { result.now ≡ take n self.old.items }
    {
        let n = n.min(self.len).min(self.room.len());
        let room = &mut *self.room;
        &mut room[..n]
    }

    /// Leaves the first n elements, or all.
    pub fn truncate(&mut self, n: usize)
        ensures items { self.new.items ≡ take n self.old.items }
        ensures room { self.new.room ≡ self.old.room }
    {
        self.len = self.len.min(n);
    }

    // Makes the list one of n elements, or as many as there is room for, and returns them for writing. What they are is left open.
    pub(crate) fn start(&mut self, n: usize) -> &mut [T] {
        let n = n.min(self.room.len());
        self.len = n;
        let room = &mut *self.room;
        &mut room[..n]
    }
}

impl<'a, T: Copy> List<'a, T> {
    // Sets the elements of the memory from place `from` up to `end`, if it has so many. How many elements the list has stays.
    pub(crate) fn fill_memory(&mut self, from: usize, end: usize, item: T)
        ensures { length self.new.items ≡ length self.old.items }
    {
        if let Some(part) = self.room.get_mut(from..end) {
            for place in part.iter_mut() {
                *place = item;
            }
        }
    }

    // Copies `size` elements of the memory from place `from` to place `at`, if it has so many. How many elements the list has stays.
    pub(crate) fn copy_memory(&mut self, from: usize, size: usize, at: usize)
        ensures { length self.new.items ≡ length self.old.items }
    {
        let room = self.room.len();
        if size <= room && from <= room - size && at <= room - size {
            self.room.copy_within(from..from + size, at);
        }
    }

    /// Sets element i, if there is one.
    pub fn set(&mut self, i: usize, item: T)
        ensures items { self.new.items ≡ slice_set self.old.items i item }
        ensures room { self.new.room ≡ self.old.room }
    {
        if i < self.len && i < self.room.len() {
            self.room[i] = item;
        }
    }

    /// Appends an element. Fails if there is no room for it.
    pub fn push(&mut self, item: T) -> Result<(), AllocError>
        ensures items { OnOk result (self.new.items ≡ self.old.items ++ item ∷ []) }
        ensures succeeds { length self.old.items < self.old.room → IsOk result }
        ensures room { self.new.room ≡ self.old.room }
        ensures unchanged { OnErr result (self.new ≡ self.old) }
    {
        if self.len < self.room.len() {
            self.room[self.len] = item;
            self.len += 1;
            Ok(())
        } else {
            Err(AllocError)
        }
    }

    /// Appends elements. Fails if there is no room for all.
    pub fn extend_from_slice(&mut self, more: &[T]) -> Result<(), AllocError>
        ensures items { OnOk result (self.new.items ≡ self.old.items ++ more.now) }
        ensures succeeds { length self.old.items + length more.now ≤ self.old.room → IsOk result }
        ensures room { self.new.room ≡ self.old.room }
        ensures unchanged { OnErr result (self.new ≡ self.old) }
    {
        let at = self.len.min(self.room.len());
        if self.room.len() - at < more.len() {
            return Err(AllocError);
        }
        let end = at + more.len();
        self.room[at..end].copy_from_slice(more);
        self.len = end;
        Ok(())
    }

    /// Sets the list to these elements. Fails if there is no room for all.
    pub fn assign(&mut self, from: &[T]) -> Result<(), AllocError>
        ensures items { OnOk result (self.new.items ≡ from.now) }
        ensures succeeds { length from.now ≤ self.old.room → IsOk result }
        ensures room { self.new.room ≡ self.old.room }
        ensures unchanged { OnErr result (self.new ≡ self.old) }
    {
        let n = from.len();
        if self.room.len() < n {
            return Err(AllocError);
        }
        self.room[0..n].copy_from_slice(from);
        self.len = n;
        Ok(())
    }
}
