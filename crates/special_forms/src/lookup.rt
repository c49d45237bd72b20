// Locals are bound, unbound and found by their names.
#![tactic(auto, using(crate::proofs::Places::place_steps))]

ghost use Rattle.std.specs.Prelude.{◌≡◌, ◌<◌, ℕ, List, ◌∷◌, [], drop, map, OnOk, OnErr, option_map};
ghost use Rattle.std.specs.Prelude.{is_some, Some, true};
ghost use Rattle.std.specs.VecDeque.{deque_len};
ghost use Rattle.std.specs.BTreeMap.{get, Updates};
ghost use Rattle.std.specs.Arc.{arc_str_bytes};
ghost use Rattle.value_data.specs.Inside.View.{view};
ghost use Rattle.special_forms.specs.Locals.{LocalData, local_value};
ghost use Rattle.special_forms.specs.Inside.Naming.{by_bytes, local_view, newest_place};

use crate::local::Local;
use crate::locals::Locals;
use repl_values::{Value, copy_text};
use std::alloc::{AllocError, Global};
use std::collections::{BTreeMap, VecDeque};
use std::sync::ArcStr;

impl Locals {
    /// No name is bound.
    pub fn none(alloc: Global) -> Locals
        ensures { result ≡ [] }
    {
        Locals {
            locals: VecDeque::new(alloc),
            index: BTreeMap::new(alloc),
        }
    }

    /// Binds a name, which hides what it was bound to before. It takes about the logarithm of the
    /// number of names, and fails only for want of memory; then all stays as it was.
    pub fn bind(&mut self, name: ArcStr, value: Value) -> Result<(), AllocError>
        ensures bound { OnOk result (self.new
            ≡ record { name = arc_str_bytes name; bound = view value } ∷ self.old) }
        ensures stays { OnErr result (self.new ≡ self.old) }
    {
        let key = copy_text(&name)?;
        self.locals.reserve(1)?;
        let place = self.locals.len();
        let older = self.index.insert(key, place)?;
        self.locals
            .push_front_reserved(Local { name, value, older });
        Ok(())
    }

    /// Takes the newest binding back, if there is one. It takes about the logarithm of the number
    /// of names.
    pub fn unbind(&mut self)
        ensures { self.new ≡ drop 1 self.old }
    {
        let Some(newest) = self.locals.pop_front() else {
            return;
        };
        forget(&mut self.index, &newest.name, newest.older);
    }

    /// The value that the name is bound to. It takes about the logarithm of the number of names.
    pub fn value(&self, name: &ArcStr) -> Option<&Value>
        ensures { option_map (λ v. view v.now) result
            ≡ local_value self.now (arc_str_bytes name.now) }
    {
        match self.index.get(name) {
            Some(place) => Some(value_at(&self.locals, *place)),
            None => None,
        }
    }
}

// The value of the local at the place, counted from the oldest.
fn value_at(locals: &VecDeque<Local>, place: usize) -> &Value
    requires { place < deque_len locals.now }
    ensures { (s : List ℕ) → newest_place (map local_view locals.now.items) s ≡ Some place
        → local_value (map local_view locals.now.items) s ≡ Some (view result.now) }
{
    &locals[locals.len() - 1 - place].value
}

// The next older place for a name that is there, or none.
fn forget(index: &mut BTreeMap<ArcStr, usize>, name: &ArcStr, older: Option<usize>)
    requires { is_some (get by_bytes index.old name.now) ≡ true }
    ensures { Updates by_bytes index.old index.new name.now older }
{
    match older {
        Some(place) => {
            if let Some(newest) = index.get_mut(name) {
                *newest = place;
            }
        }
        None => {
            index.remove(name);
        }
    }
}
