// What a symbol names before anybody is asked.
#![tactic(auto, using(walker_state::proofs::Stepping::steps))]

ghost use Rattle.std.specs.Prelude.{◌≡◌, ◌||◌, option_map, is_some, IfOk};
ghost use Rattle.std.specs.Arc.{arc_str_bytes};
ghost use Rattle.core_functions.specs.Names.{function_named};
ghost use Rattle.core_functions.specs.StoreNames.{store_function_named};
ghost use Rattle.repl_asks.specs.Exchange.{resolve};
ghost use Rattle.value_data.specs.Inside.View.{view};
ghost use Rattle.repl_asks.specs.Inside.View.{ask_view, resolution_view};
ghost use Rattle.walker_state.specs.Pending.{place_of, kept_of};
ghost use Rattle.walker_state.specs.Frames.{place_view, known_view};
ghost use Rattle.evaluation_rules.specs.Naming.{core_name, core_resolution, store_resolution};
ghost use Rattle.evaluation_rules.specs.Naming.{local_resolution, known_resolution};
ghost use Rattle.evaluation_rules.specs.Places.{space_of};

use core_functions::{CoreFunction, StoreFunction, knows};
use repl_asks::{Ask, NamedFunction, Resolution};
use repl_values::{Value, copy, copy_text, no_such_var};
use std::alloc::{AllocError, Global};
use std::sync::ArcStr;
use walker_state::{Place, State};

const CORE: &str = "clojure.core";

/// Whether a function of the language has this name, without its namespace. It takes no memory.
pub fn names_function(name: &str) -> bool
    ensures { result ≡ is_some (function_named name.now)
        || is_some (store_function_named name.now) }
{
    knows(name) || StoreFunction::named(name).is_some()
}

// What a symbol names, as far as that can be known without an ask.
pub(crate) fn look_up(
    alloc: Global,
    place: &Place,
    symbol: &ArcStr,
) -> Result<Option<Resolution>, AllocError>
    ensures { IfOk result (λ found. known_view found
        ≡ known_resolution (place_view place.now) (arc_str_bytes symbol.now)) }
{
    match core_name(symbol.as_str()) {
        Some(name) => Ok(Some(core_resolution(alloc, symbol, name)?)),
        None => local_resolution(place.locals.value(symbol)),
    }
}

// What follows the slash of a name in `clojure.core`.
#[tactic(auto, using(walker_state::proofs::Stepping::steps), unfolding(evaluation_rules::specs::Naming::core_name))]
fn core_name(symbol: &str) -> Option<&str>
    ensures { option_map (λ name. name.now) result ≡ core_name symbol.now }
{
    match symbol.split_once('/') {
        Some((space, name)) if space == CORE => Some(name),
        _ => None,
    }
}

fn core_resolution(alloc: Global, symbol: &ArcStr, name: &str) -> Result<Resolution, AllocError>
    ensures { IfOk result (λ found. resolution_view found
        ≡ core_resolution (arc_str_bytes symbol.now) name.now (function_named name.now)) }
{
    match CoreFunction::named(name) {
        Some(function) => Ok(Resolution::Function(NamedFunction::Core(function))),
        None => store_resolution(alloc, symbol, name),
    }
}

// A function that asks the store is of the language too.
fn store_resolution(alloc: Global, symbol: &ArcStr, name: &str) -> Result<Resolution, AllocError>
    ensures { IfOk result (λ found. resolution_view found
        ≡ store_resolution (arc_str_bytes symbol.now) (store_function_named name.now)) }
{
    match StoreFunction::named(name) {
        Some(function) => Ok(Resolution::Function(NamedFunction::Store(function))),
        None => Ok(Resolution::Nothing(no_such_var(alloc, symbol.as_str())?)),
    }
}

fn local_resolution(value: Option<&Value>) -> Result<Option<Resolution>, AllocError>
    ensures { IfOk result (λ found. known_view found
        ≡ local_resolution (option_map (λ v. view v.now) value.entry)) }
{
    match value {
        Some(value) => Ok(Some(Resolution::Value(copy(value)?))),
        None => Ok(None),
    }
}

// The namespace in which a symbol is resolved and a name defined: that of the function whose body
// the form is in, else the evaluation's own.
pub(crate) fn space(state: &State) -> Result<ArcStr, AllocError>
    ensures { IfOk result (λ name. arc_str_bytes name
        ≡ space_of (place_of state.now) (kept_of state.now)) }
{
    match &state.place.home {
        Some(home) => copy_text(home),
        None => copy_text(&state.namespace),
    }
}

// What a symbol names is asked for, in the namespace that counts. It fails only for want of
// memory.
pub(crate) fn resolve(state: &State, symbol: &ArcStr) -> Result<Ask, AllocError>
    ensures { IfOk result (λ ask. ask_view ask
        ≡ resolve (space_of (place_of state.now) (kept_of state.now)) (arc_str_bytes symbol.now)) }
{
    Ok(Ask::Resolve {
        namespace: space(state)?,
        symbol: copy_text(symbol)?,
    })
}
