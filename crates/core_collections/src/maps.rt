// Applying a function of maps to values.
ghost use Rattle.std.specs.Prelude.{◌≡◌, true, length, map};
ghost use Rattle.value_data.specs.Inside.View.{view};
ghost use Rattle.repl_values.specs.Inside.FaultView.{Gives};
ghost use Rattle.core_collections.specs.MapNames.{fits_map_function};
ghost use Rattle.core_collections.specs.MapMeaning.{map_meaning};

use crate::arguments::by_turns;
use crate::changes::{assoc, dissoc};
use crate::lookups::{contains, get};
use crate::making::{hash_map, keys, vals};
use crate::map_function::MapFunction;
use repl_values::{ApplyError, Value};
use std::alloc::Global;

/// The function's value at as many arguments as it takes. All arguments' kinds are checked from the
/// left before anything else.
#[tactic(auto, using(crate::proofs::MapValues::seen), unfolding(crate::specs::MapMeaning::map_meaning))]
pub fn apply_maps(alloc: Global, function: MapFunction, args: &[Value]) -> Result<Value, ApplyError>
    requires { fits_map_function function (length args.now) ≡ true }
    ensures { Gives view result (map_meaning function (map view args.now)) }
{
    match function {
        MapFunction::HashMap => hash_map(alloc, args),
        MapFunction::Get => get(alloc, &args[0], &args[1], args.get(2)),
        MapFunction::Contains => contains(alloc, &args[0], &args[1]),
        MapFunction::Assoc => {
            let more = by_turns(alloc, &args[1..])?;
            assoc(alloc, &args[0], more.pairs.as_slice())
        }
        MapFunction::Dissoc => dissoc(alloc, &args[0], &args[1..]),
        MapFunction::Keys => keys(alloc, &args[0]),
        MapFunction::Vals => vals(alloc, &args[0]),
    }
}
