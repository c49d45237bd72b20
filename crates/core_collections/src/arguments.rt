// Arguments by turns, and what is put into a vector.
#![tactic(auto, using(crate::proofs::MapValues::seen))]

ghost use Rattle.std.specs.Prelude.{◌≡◌, map, option_map, IfOk};
ghost use Rattle.value_data.specs.Inside.View.{view};
ghost use Rattle.repl_values.specs.Inside.FaultView.{Gives};
ghost use Rattle.value_data.specs.Inside.Seen.{entry_view};
ghost use Rattle.core_collections.specs.MapArguments as meant;
ghost use Rattle.core_collections.specs.Inside.View.{indexed_view};

use repl_values::{ApplyError, Value, integer_of};
use std::alloc::{AllocError, Global};

// Keys and their values by turns, and the last of an odd number.
#[derive(Drop)]
pub(crate) struct KeysByTurns<'a> {
    pub(crate) pairs: Vec<(&'a Value, &'a Value)>,
    pub(crate) left_alone: Option<&'a Value>,
}

pub(crate) fn by_turns<'a>(alloc: Global, args: &'a [Value]) -> Result<KeysByTurns<'a>, AllocError>
    ensures pairs { IfOk result (λ turns. map entry_view turns.pairs.items
        ≡ meant.by_turns (map view args.now)) }
    ensures left { IfOk result (λ turns. option_map (λ v. view v.now) turns.left_alone
        ≡ meant.left_alone (map view args.now)) }
{
    let mut pairs = Vec::new(alloc);
    let mut left = args;
    while left.len() >= 2 {
        pairs.push((&left[0], &left[1]))?;
        left = &left[2..];
    }
    Ok(KeysByTurns {
        pairs,
        left_alone: left.first(),
    })
}

// What is put into a vector: each value by its index.
pub(crate) fn places_of<'a>(
    alloc: Global,
    function: &str,
    pairs: &[(&'a Value, &'a Value)],
) -> Result<Vec<(i64, &'a Value)>, ApplyError>
    ensures { Gives (λ places. map indexed_view places.items) result
        (meant.places_in function.now (map entry_view pairs.now)) }
{
    let mut places = Vec::new(alloc);
    for (index, value) in pairs {
        let index = integer_of(alloc, function, index)?;
        places.push((index, *value))?;
    }
    Ok(places)
}
