// A row of items in pages, of which each item is found by its place.
ghost use Rattle.std.specs.Prelude.{◌≡◌, ◌+◌, ◌-◌, ◌<◌, ◌≤◌, ◌++◌, [], ◌∷◌, length};
ghost use Rattle.std.specs.Prelude.{slice_index_or, slice_set, IsOk, OnOk, OnErr, IfSome};
ghost use Rattle.std.specs.Borrow.{sem};
ghost use Rattle.std.specs.List.{IsItemAtMut};
ghost use Rattle.std.specs.Slice.{IsItemAt};
ghost use Rattle.paged_list.specs.Lending.{lends_item, lends_get};

use crate::growing::{begin_page, enlarge_page, next_size};
use crate::pages::PAGE;
use std::alloc::{AllocError, Global};
use std::marker::Model;
use std::mem;

// No pages have room for more items.
const MOST: usize = usize::MAX;

/// Items in a row, each of which is found, lent and replaced by its place. They lie in pages. The
/// first begins small, and moves where it gets twice the room. Once it has room for `PAGE` items
/// pages are begun, each is allocated once, and no item moves any more.
#[derive(Drop)]
pub struct PagedRow<T> {
    alloc: Global,
    // the full ones, perhaps one with some items, and behind it those that are still empty
    pages: Vec<Vec<T>>,
    count: usize,
    // for how many items all pages have room
    fitting: usize,
}

impl<T> Model for PagedRow<T> {
    ghost use Rattle.paged_list.specs.Listed.{Listed, listed_code};

    ghost Value = { Listed T };

    ghost coded = { listed_code T.code };

    ghost use Rattle.std.specs.Prelude.{◌-◌};
    ghost use Rattle.paged_list.specs.Paged.{all_items, IsRow};

    ghost view = { λ r. record {
      items = all_items r.pages.items;
      room = r.fitting - r.count;
    } };

    ghost invariant = { λ r. IsRow r.pages.items r.count r.fitting };
}

impl<T> PagedRow<T> {
    /// A row of no items. It takes no memory.
    pub fn new(alloc: Global) -> PagedRow<T>
        ensures items { result.items ≡ [] }
        ensures room { result.room ≡ 0 }
    {
        PagedRow {
            alloc,
            pages: Vec::new(alloc),
            count: 0,
            fitting: 0,
        }
    }

    /// How many items there are.
    pub fn len(&self) -> usize
        ensures { result ≡ length self.now.items }
    {
        self.count
    }

    /// The item at a place.
    pub fn at(&self, place: usize) -> &T
        requires { place < length self.now.items }
        ensures { result.now ≡ slice_index_or self.now.items place result.now }
    {
        let page = &self.pages[place / PAGE];
        &page[place % PAGE]
    }

    /// The item at a place, if there is one.
    pub fn get(&self, place: usize) -> Option<&T>
        ensures { IsItemAt self.now.items place result }
    {
        if place < self.len() {
            Some(self.at(place))
        } else {
            None
        }
    }

    /// Lends the item at a place, to be changed there.
    pub fn at_mut(&mut self, place: usize) -> &mut T
        requires { place < length self.old.items }
        ensures* writes_back { sem 𝓛 (lends_item T.row self.entry place result) }
        ensures value { result.now ≡ slice_index_or self.old.items place result.now }
    {
        let page = &mut self.pages[place / PAGE];
        &mut page[place % PAGE]
    }

    /// Lends the item at a place, if there is one, to be changed there.
    pub fn get_mut(&mut self, place: usize) -> Option<&mut T>
        ensures* writes_back { sem 𝓛 (lends_get T.row self.entry place result) }
        ensures value { IfSome result (λ x. x.now ≡ slice_index_or self.old.items place x.now) }
        ensures item { IsItemAtMut self.old.items place result }
    {
        if place < self.len() {
            Some(self.at_mut(place))
        } else {
            None
        }
    }

    /// Puts an item where another was, and gives that one.
    pub fn replace(&mut self, place: usize, item: T) -> T
        requires { place < length self.old.items }
        ensures items { self.new.items ≡ slice_set self.old.items place item }
        ensures room { self.new.room ≡ self.old.room }
        ensures gives { result ≡ slice_index_or self.old.items place result }
    {
        mem::replace(self.at_mut(place), item)
    }

    /// Puts an item where another was.
    pub fn set(&mut self, place: usize, item: T)
    where
        T: Drop,
        requires { place < length self.old.items }
        ensures items { self.new.items ≡ slice_set self.old.items place item }
        ensures room { self.new.room ≡ self.old.room }
    {
        drop(self.replace(place, item));
    }

    /// Makes room for so many more items. It fails only for want of memory, or where they would be
    /// more than 2^64 - 1 with those that are there; what room it made until then stays.
    pub fn reserve(&mut self, count: usize) -> Result<(), AllocError>
    where
        T: Drop,
        ensures items { self.new.items ≡ self.old.items }
        ensures room { OnOk result (count ≤ self.new.room) }
        ensures more { self.old.room ≤ self.new.room }
        ensures succeeds { count ≤ self.old.room → IsOk result }
    {
        if count <= self.room() {
            return Ok(());
        }
        self.make_room(count)
    }

    fn make_room(&mut self, count: usize) -> Result<(), AllocError>
        ensures items { self.new.items ≡ self.old.items }
        ensures room { OnOk result (count ≤ self.new.room) }
        ensures more { self.old.room ≤ self.new.room }
    {
        while self.room() < count {
            self.grow()?;
        }
        Ok(())
    }

    fn room(&self) -> usize
        ensures { result ≡ self.now.room }
    {
        self.fitting - self.count
    }

    // Makes room for some more items: in the first page, or in one that is begun.
    fn grow(&mut self) -> Result<(), AllocError>
        ensures items { self.new.items ≡ self.old.items }
        ensures room { OnOk result (self.old.room < self.new.room) }
        ensures as_before { OnErr result (self.new.room ≡ self.old.room) }
    {
        if self.fitting > MOST - PAGE {
            return Err(AllocError);
        }
        let place = self.fitting / PAGE;
        let size = next_size(self.fitting);
        begin_page(self.alloc, &mut self.pages, place)?;
        enlarge_page(&mut self.pages, place, size)?;
        self.fitting = place * PAGE + size;
        Ok(())
    }

    /// Puts an item behind the others.
    pub fn put(&mut self, item: T)
        requires { 0 < self.old.room }
        ensures items { self.new.items ≡ self.old.items ++ item ∷ [] }
        ensures room { self.new.room + 1 ≡ self.old.room }
    {
        let page = &mut self.pages[self.count / PAGE];
        page.push_reserved(item);
        self.count += 1;
    }
}
