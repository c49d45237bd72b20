// What a form asks of atoms.
ghost use Rattle.std.specs.Prelude.{◌≡◌, length, unwrap_or, IfOk, OnOk, OnErr};
ghost use Rattle.value_data.specs.Datum.{nil, atom, boolean};
ghost use Rattle.value_data.specs.Inside.View.{view};
ghost use Rattle.repl_asks.specs.Exchange as told;
ghost use Rattle.private_cells.specs.Atoms.{atom_value, with_atom, with_atom_value, is_unchanged};
ghost use Rattle.private_cells.specs.Atoms.{with_try};
ghost use Rattle.private_cells.specs.Inside.View.{atoms_view};
ghost use Rattle.tenant_parts.specs.AnswerCopies.{copies_view, AreAllSame};

use private_cells::Atoms;
use repl_asks::Answer;
use repl_values::{Value, copy};
use std::alloc::AllocError;
use tenant_parts::AnswerCopies;

/// The answer is the atom.
pub(crate) fn make(atoms: &mut Atoms, value: &Value) -> Result<AnswerCopies, AllocError>
    ensures answered { IfOk result (λ it. copies_view it
        ≡ told.value (atom (length (atoms_view atoms.old).values))) }
    ensures made { OnOk result (atoms_view atoms.new
        ≡ with_atom (view value.now) (atoms_view atoms.old)) }
    ensures stays { OnErr result (atoms_view atoms.new ≡ atoms_view atoms.old) }
    ensures copies { IfOk result AreAllSame }
{
    let number = atoms.make(copy(value)?)?;
    Ok(AnswerCopies::of_atom(number))
}

/// It fails only where 2^63 owners share a part of the value.
pub(crate) fn read(atoms: &Atoms, number: u64) -> Result<AnswerCopies, AllocError>
    ensures answered { IfOk result (λ it. copies_view it
        ≡ told.value (unwrap_or (atom_value number (atoms_view atoms.now)) nil)) }
    ensures copies { IfOk result AreAllSame }
{
    match atoms.read(number) {
        Some(value) => AnswerCopies::of(Answer::Value(copy(value)?)),
        None => AnswerCopies::of(Answer::Value(Value::Nil)),
    }
}

/// The answer is the new value, whatever the atom had.
pub(crate) fn set(atoms: &mut Atoms, number: u64, value: &Value) -> Result<AnswerCopies, AllocError>
    ensures answered { IfOk result (λ it. copies_view it ≡ told.value (view value.now)) }
    ensures set { OnOk result (atoms_view atoms.new
        ≡ with_atom_value number (view value.now) (atoms_view atoms.old)) }
    ensures stays { OnErr result (atoms_view atoms.new ≡ atoms_view atoms.old) }
    ensures copies { IfOk result AreAllSame }
{
    let answer = AnswerCopies::of(Answer::Value(copy(value)?))?;
    atoms.set(number, copy(value)?);
    Ok(answer)
}

/// The answer is whether the atom had what was seen of it.
pub(crate) fn swap(
    atoms: &mut Atoms,
    number: u64,
    seen: &Value,
    next: &Value,
) -> Result<AnswerCopies, AllocError>
    ensures answered { IfOk result (λ it. copies_view it
        ≡ told.value (boolean (is_unchanged number (view seen.now) (atoms_view atoms.old)))) }
    ensures tried { OnOk result (atoms_view atoms.new
        ≡ with_try number (view seen.now) (view next.now) (atoms_view atoms.old)) }
    ensures stays { OnErr result (atoms_view atoms.new ≡ atoms_view atoms.old) }
    ensures copies { IfOk result AreAllSame }
{
    let has_succeeded = atoms.swap_try(number, seen, copy(next)?);
    Ok(AnswerCopies::of_boolean(has_succeeded))
}
