// Applying a function of sequences to values.
ghost use Rattle.std.specs.Prelude.{◌≡◌, true, length, map};
ghost use Rattle.value_data.specs.Inside.View.{view};
ghost use Rattle.repl_values.specs.Inside.FaultView.{Gives};
ghost use Rattle.core_collections.specs.SequenceNames.{fits_sequence_function};
ghost use Rattle.core_collections.specs.SequenceMeaning.{sequence_meaning};

use crate::ends::{first, last, next, rest, reversed_list};
use crate::joins::{conj, cons};
use crate::places::{count, is_empty, nth};
use crate::sequence_function::SequenceFunction;
use repl_values::{ApplyError, Value, copy_items, list_of, vector_of};
use std::alloc::Global;

/// The function's value at as many arguments as it takes. All arguments' kinds are checked from the
/// left before anything else.
#[tactic(auto, using(crate::proofs::SequenceValues::seen), unfolding(crate::specs::SequenceMeaning::sequence_meaning))]
pub fn apply_sequences(
    alloc: Global,
    function: SequenceFunction,
    args: &[Value],
) -> Result<Value, ApplyError>
    requires { fits_sequence_function function (length args.now) ≡ true }
    ensures { Gives view result (sequence_meaning function (map view args.now)) }
{
    match function {
        SequenceFunction::List => Ok(list_of(alloc, copy_items(alloc, args)?)?),
        SequenceFunction::Vector => Ok(vector_of(alloc, copy_items(alloc, args)?)?),
        SequenceFunction::First => first(alloc, &args[0]),
        SequenceFunction::Last => last(alloc, &args[0]),
        SequenceFunction::Rest => rest(alloc, &args[0]),
        SequenceFunction::Next => next(alloc, &args[0]),
        SequenceFunction::Reverse => reversed_list(alloc, &args[0]),
        SequenceFunction::Cons => cons(alloc, &args[0], &args[1]),
        SequenceFunction::Conj => conj(alloc, &args[0], &args[1..]),
        SequenceFunction::Count => count(alloc, &args[0]),
        SequenceFunction::IsEmpty => is_empty(alloc, &args[0]),
        SequenceFunction::Nth => nth(alloc, &args[0], &args[1], args.get(2)),
    }
}
