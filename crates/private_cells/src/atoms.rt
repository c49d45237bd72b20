// The atoms of a tenant.
ghost use Rattle.std.specs.Prelude.{◌≡◌, length, option_map, IfOk, OnOk, OnErr};
ghost use Rattle.value_data.specs.Inside.View.{view};
ghost use Rattle.private_cells.specs.Atoms.{no_atoms, atom_value, with_atom, with_atom_value};
ghost use Rattle.private_cells.specs.Atoms.{is_unchanged, with_try};

use paged_list::PagedRow;
use repl_values::{Value, same};
use std::alloc::{AllocError, Global};

/// The atoms of one tenant, numbered from 0 in the order of their making. None is ever removed.
#[derive(Drop)]
pub struct Atoms {
    pub(crate) values: PagedRow<Value>,
}

impl Atoms {
    ghost use Rattle.private_cells.specs.Inside.View.{atoms_view};

    /// No atoms. It takes no memory.
    pub fn new(alloc: Global) -> Atoms
        ensures { atoms_view result ≡ no_atoms }
    {
        Atoms {
            values: PagedRow::new(alloc),
        }
    }

    /// Makes an atom with this value, and answers its number. It fails only for want of memory.
    pub fn make(&mut self, value: Value) -> Result<u64, AllocError>
        ensures number { IfOk result (λ number. number ≡ length (atoms_view self.old).values) }
        ensures made { OnOk result (atoms_view self.new
            ≡ with_atom (view value) (atoms_view self.old)) }
        ensures stays { OnErr result (atoms_view self.new ≡ atoms_view self.old) }
    {
        let number = self.values.len() as u64;
        self.values.reserve(1)?;
        self.values.put(value);
        Ok(number)
    }

    /// The value of an atom, if there is one of this number.
    pub fn read(&self, number: u64) -> Option<&Value>
        ensures { option_map (λ v. view v.now) result ≡ atom_value number (atoms_view self.now) }
    {
        self.values.get(number as usize)
    }

    /// Gives an atom its next value where it equals what was seen of it, as `=` of the language
    /// has it, and tells whether it did. It takes no memory, and as many steps as the comparison.
    pub fn swap_try(&mut self, number: u64, seen: &Value, next: Value) -> bool
        ensures told { result ≡ is_unchanged number (view seen.now) (atoms_view self.old) }
        ensures tried { atoms_view self.new
            ≡ with_try number (view seen.now) (view next) (atoms_view self.old) }
    {
        let succeeds = match self.read(number) {
            Some(value) => same(value, seen),
            None => false,
        };
        if succeeds {
            self.set(number, next);
        }
        succeeds
    }

    /// Gives an atom this value, whatever it was, if there is one of this number.
    pub fn set(&mut self, number: u64, value: Value)
        ensures { atoms_view self.new
            ≡ with_atom_value number (view value) (atoms_view self.old) }
    {
        match self.values.get_mut(number as usize) {
            Some(place) => *place = value,
            None => drop(value),
        }
    }
}
