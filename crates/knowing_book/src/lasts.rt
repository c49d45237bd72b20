// Where the last entry under a key stands.
ghost use Rattle.std.specs.Prelude.{◌≡◌, ◌<◌, ◌^◌, ℕ, None};
ghost use Rattle.std.specs.BTreeMap.{get};
ghost use Rattle.std.specs.Ordering.{nat_cmp};
ghost use Rattle.knowing_book.specs.Lasts.{last_at, IsNotedIn, IsForgottenIn};

use std::alloc::Global;
use std::collections::BTreeMap;

/// For the keys that are followed, how many entries a history has up to the last one under the key.
#[derive(Drop)]
pub struct Lasts {
    places: BTreeMap<u64, u64>,
}

impl Lasts {
    /// No key is followed.
    pub fn new(alloc: Global) -> Lasts
        ensures { (k : ℕ) → last_at result k ≡ None }
    {
        Lasts {
            places: BTreeMap::new(alloc),
        }
    }

    /// The number of entries up to the last one under the key, if the key is followed.
    pub fn get(&self, key: u64) -> Option<u64>
        ensures { result ≡ last_at self.now key }
    {
        self.places.get(&key).copied()
    }

    /// An entry under the key stands behind so many others. Where memory is refused the key is not
    /// followed.
    pub fn note(&mut self, key: u64, place: u64)
        requires { place < 2 ^ 63 }
        ensures { IsNotedIn self.old self.new key place }
    {
        match self.places.insert(key, place + 1) {
            Ok(_before) => {}
            Err(_refused) => {}
        }
    }

    /// The key is followed no more.
    pub fn forget(&mut self, key: u64)
        ensures { IsForgottenIn self.old self.new key }
    {
        let _ = self.places.remove(&key);
    }
}
