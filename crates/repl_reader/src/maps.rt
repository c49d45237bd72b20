// A map from the forms between its braces.
ghost use Rattle.std.specs.Prelude.{◌≡◌, Some, IfOk, string_bytes};
ghost use Rattle.value_data.specs.Inside.View.{items_view, pairs_view};
ghost use Rattle.value_data.specs.Keyed.{keys_of};
ghost use Rattle.repl_reader.specs.Maps.{print_at, map_of, paired};
ghost use Rattle.repl_reader.specs.Inside.View.{form_reading_view, AreEntries};

use crate::entries::MapEntries;
use crate::fault::{FaultKind, break_with};
use crate::reading::FormReading;
use repl_values::{Built, Table, Value, copy, print_into};
use std::alloc::{AllocError, Global};

/// The map of these forms, before this rest of the text.
#[tactic(auto, unfolding(crate::specs::Maps::map_of))]
pub(crate) fn read_map<'a>(
    alloc: Global,
    forms: Vec<Value>,
    rest: &'a str,
) -> Result<FormReading<'a>, AllocError>
    ensures { IfOk result (λ r. form_reading_view r
        ≡ map_of (paired (items_view forms.items)) rest.now) }
{
    match split_forms(alloc, forms)? {
        None => {
            let left = rest.len() + 1;
            Ok(FormReading::Broken(break_with(alloc, FaultKind::OddMap, left, "")?))
        }
        Some(entries) => map_or_fault(alloc, entries, rest),
    }
}

/// The forms by turns, as keys and values: `None` where the last key has no value.
#[tactic(auto, using(crate::proofs::Rows::pair_steps))]
fn split_forms(alloc: Global, forms: Vec<Value>) -> Result<Option<MapEntries>, AllocError>
    ensures { IfOk result (λ entries. AreEntries entries (paired (items_view forms.items))) }
{
    let mut keys = Vec::new(alloc);
    let mut pairs = Vec::new(alloc);
    let mut pending = None;
    for form in forms {
        match pending {
            None => pending = Some(form),
            Some(key) => {
                keys.push(copy(&key)?)?;
                pairs.push((key, form))?;
                pending = None;
            }
        }
    }
    match pending {
        None => Ok(Some(MapEntries { keys, pairs })),
        Some(_) => Ok(None),
    }
}

// The map, unless a key is equal to one before it.
#[tactic(auto, unfolding(crate::specs::Maps::map_of))]
fn map_or_fault<'a>(
    alloc: Global,
    entries: MapEntries,
    rest: &'a str,
) -> Result<FormReading<'a>, AllocError>
    requires { keys_of (pairs_view entries.pairs.items) ≡ items_view entries.keys.items }
    ensures { IfOk result (λ r. form_reading_view r
        ≡ map_of (Some (pairs_view entries.pairs.items)) rest.now) }
{
    let MapEntries { keys, pairs } = entries;
    match Table::from_pairs(alloc, pairs)? {
        Built::Made(pairs) => Ok(FormReading::Form(Value::Map(pairs), rest)),
        Built::Repeats(place) => {
            let key = print_of(alloc, keys.as_slice(), place)?;
            let left = rest.len() + 1;
            let fault = break_with(alloc, FaultKind::SameKey, left, key.as_str())?;
            Ok(FormReading::Broken(fault))
        }
    }
}

// The print of the key at a place.
fn print_of(alloc: Global, keys: &[Value], place: usize) -> Result<String, AllocError>
    ensures { IfOk result (λ text. string_bytes text ≡ print_at place (items_view keys.now)) }
{
    let mut text = String::new(alloc);
    let Some(key) = keys.get(place) else {
        return Ok(text);
    };
    print_into(alloc, key, &mut text)?;
    Ok(text)
}
