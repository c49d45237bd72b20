// The pages of a list.
ghost use Rattle.std.specs.Prelude.{◌≡◌, ◌+◌, ◌<◌, ◌≤◌, ◌^◌, ◌++◌, [], ◌∷◌, length, flat_map};
ghost use Rattle.std.specs.Prelude.{IfOk, OnOk};

use std::alloc::{AllocError, Global};
use std::marker::Model;
use std::mem;

/// How many items a page has room for.
pub const PAGE: usize = 1_024;

/// Items in the order in which they were put in. They lie in pages, each of which is allocated
/// once: where a page is full the next one is begun, and no item moves.
#[derive(Drop)]
pub struct Pages<T> {
    alloc: Global,
    full: Vec<Vec<T>>,
    last: Vec<T>,
    count: u64,
}

impl<T> Model for Pages<T> {
    ghost use Rattle.std.specs.Prelude.{◌≡◌, ◌++◌, ◌-◌, length, vec_len, vec_capacity, flat_map};
    ghost use Rattle.paged_list.specs.Listed.{Listed, listed_code};

    ghost Value = { Listed T };

    ghost coded = { listed_code T.code };

    ghost view = { λ p. record {
      items = flat_map (λ page. page.items) p.full.items ++ p.last.items;
      room = vec_capacity p.last - vec_len p.last;
    } };

    ghost invariant = { λ p. p.count
        ≡ length (flat_map (λ page. page.items) p.full.items ++ p.last.items) };
}

impl<T> Pages<T> {
    /// A list of no items. It takes no memory.
    pub fn new(alloc: Global) -> Pages<T>
        ensures { result.items ≡ [] }
    {
        Pages {
            alloc,
            full: Vec::new(alloc),
            last: Vec::new(alloc),
            count: 0,
        }
    }

    /// How many items there are.
    pub fn len(&self) -> u64
        ensures { result ≡ length self.now.items }
    {
        self.count
    }

    /// All items: those of the pages that are full, and behind them those of the last page.
    pub fn pages(&self) -> (&[Vec<T>], &[T])
        ensures { flat_map (λ page. page.items) result.0.now ++ result.1.now ≡ self.now.items }
    {
        (self.full.as_slice(), self.last.as_slice())
    }

    /// Makes room for one more item, where there is none. It fails only for want of memory, or where
    /// there are 2^64 - 1 items, and takes a step; one time in 1,024 it begins a page.
    pub fn make_room(&mut self) -> Result<(), AllocError>
    where
        T: Drop,
        ensures items { self.new.items ≡ self.old.items }
        ensures room { OnOk result (0 < self.new.room) }
        ensures bound { OnOk result (length self.new.items + 1 < 2 ^ 64) }
    {
        if self.count == u64::MAX {
            return Err(AllocError);
        }
        if self.last.len() < self.last.capacity() {
            return Ok(());
        }
        self.full.reserve(1)?;
        let page = Vec::with_capacity(self.alloc, PAGE)?;
        let before = mem::replace(&mut self.last, page);
        let Ok(()) = self.full.push(before) else {
            unreachable!()
        };
        Ok(())
    }

    /// Puts an item behind the others.
    pub fn put(&mut self, item: T)
    where
        T: Drop,
        requires room { 0 < self.old.room }
        requires bound { length self.old.items + 1 < 2 ^ 64 }
        ensures { self.new.items ≡ self.old.items ++ item ∷ [] }
    {
        let Ok(()) = self.last.push(item) else {
            unreachable!()
        };
        self.count += 1;
    }
}
