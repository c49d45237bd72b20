// The bounds of a ref's history, and the options that set them.
ghost use Rattle.std.specs.Prelude.{◌≡◌};
ghost use Rattle.std.specs.Arc.{arc_str_bytes};
ghost use Rattle.value_data.specs.Inside.View.{view, views};
ghost use Rattle.repl_asks.specs.Inside.View.{name_view, ask_view};
ghost use Rattle.repl_values.specs.Inside.FaultView.{Gives};
ghost use Rattle.evaluation_rules.specs.Arguments as meant;
ghost use Rattle.evaluation_rules.specs.Inside.View.{bounds_view};

use crate::arguments::count_of;
use core_functions::StoreFunction;
use repl_asks::Ask;
use repl_values::{ApplyError, RefName, Value, wrong_argument};
use std::alloc::Global;

/// A bound of the count of a ref's history.
#[derive(Clone, Copy, Debug, PartialEq, Eq)]
pub(crate) enum HistoryBound {
    Least,
    Greatest,
}

/// The least count of a ref's history, and the greatest.
#[derive(Clone, Copy)]
pub(crate) struct HistoryBounds {
    pub(crate) least: u64,
    pub(crate) most: u64,
}

impl HistoryBound {
    // The function that tells it, or sets it.
    pub(crate) fn function(self) -> StoreFunction
        ensures { result ≡ meant.function_of self }
    {
        match self {
            HistoryBound::Least => StoreFunction::MinHistory,
            HistoryBound::Greatest => StoreFunction::MaxHistory,
        }
    }

    // The ask that tells it, or sets it where a count is given.
    pub(crate) fn ask(self, name: RefName, set: Option<u64>) -> Ask
        ensures { ask_view result ≡ meant.ask_for self (name_view name) set }
    {
        match self {
            HistoryBound::Least => Ask::MinHistory { name, set },
            HistoryBound::Greatest => Ask::MaxHistory { name, set },
        }
    }
}

impl HistoryBounds {
    fn with(self, bound: HistoryBound, count: u64) -> HistoryBounds
        ensures { bounds_view result ≡ meant.with_bound bound count (bounds_view self) }
    {
        match bound {
            HistoryBound::Least => HistoryBounds {
                least: count,
                ..self
            },
            HistoryBound::Greatest => HistoryBounds {
                most: count,
                ..self
            },
        }
    }
}

// The bounds of a new ref with these options, each in front of its count; the last of an odd number
// is left out.
#[tactic(auto, using(crate::proofs::Options::options))]
pub(crate) fn bounds_in(alloc: Global, options: &[Value]) -> Result<HistoryBounds, ApplyError>
    ensures { Gives bounds_view result (meant.bounds_in meant.usual_bounds (views options.now)) }
{
    let mut bounds = HistoryBounds { least: 0, most: 10 };
    let mut left = options;
    while left.len() >= 2 {
        bounds = with_option(alloc, bounds, &left[0], &left[1])?;
        left = &left[2..];
    }
    Ok(bounds)
}

fn with_option(
    alloc: Global,
    bounds: HistoryBounds,
    option: &Value,
    count: &Value,
) -> Result<HistoryBounds, ApplyError>
    ensures { Gives bounds_view result
        (meant.with_option (bounds_view bounds) (view option.now) (view count.now)) }
{
    let bound = option_of(alloc, option)?;
    let count = count_of(alloc, StoreFunction::Ref, count)?;
    Ok(bounds.with(bound, count))
}

fn option_of(alloc: Global, argument: &Value) -> Result<HistoryBound, ApplyError>
    ensures { Gives (λ bound. bound) result (meant.option_in (view argument.now)) }
{
    match option(argument) {
        Some(bound) => Ok(bound),
        None => {
            let name = StoreFunction::Ref.name();
            Err(ApplyError::Fault(wrong_argument(alloc, name, argument)?))
        }
    }
}

fn option(argument: &Value) -> Option<HistoryBound>
    ensures { result ≡ meant.as_option (view argument.now) }
{
    match argument {
        Value::Keyword(name) => option_named(name.as_str()),
        _other => None,
    }
}

#[tactic(auto, unfolding(crate::specs::Arguments::option_named))]
fn option_named(name: &str) -> Option<HistoryBound>
    ensures { result ≡ meant.option_named name.now }
{
    match name {
        "min-history" => Some(HistoryBound::Least),
        "max-history" => Some(HistoryBound::Greatest),
        _ => None,
    }
}
