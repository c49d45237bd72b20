// What the text of the shared namespace is told, and what that changes.
ghost use Rattle.std.specs.Prelude.{◌≡◌, ◌++◌, ◌∷◌, [], false, List, None, length, IfOk, IfSome};
ghost use Rattle.std.specs.Prelude.{OnOk, OnErr};
ghost use Rattle.std.specs.Prelude.{option_map};
ghost use Rattle.value_data.specs.Datum.{ref as ref_datum, shared};
ghost use Rattle.value_data.specs.Inside.View.{view};
ghost use Rattle.repl_asks.specs.Exchange.{done, value as value_told, reading, found};
ghost use Rattle.repl_asks.specs.Inside.View.{ask_view, answer_view, name_view, resolution_view};
ghost use Rattle.name_spaces.specs.Inside.Seen.{defined_bindings, found_view};
ghost use Rattle.ref_history.specs.Versioned.{Ref, new_ref};
ghost use Rattle.server_rules.specs.Shared as meant;
ghost use Rattle.server_rules.specs.Shared.{SharedData, value_in_ref};
ghost use Rattle.shared_space.specs.Holding.{HoldsRefs, HoldsShared};
ghost use Rattle.shared_space.specs.Telling.{told_view, IsTwice, ToldBehind};

use name_spaces::{Found, SharedDefinitions};
use ref_history::{Bounds, RingHistory};
use ref_table::RefTable;
use repl_asks::{Answer, Ask, Reading, Resolution};
use repl_values::{Owner, RefName, Value, copy, copy_text};
use std::alloc::{AllocError, Global};

// The bounds of a shared ref's history.
const BOUNDS: Bounds = Bounds { least: 0, most: 10 };

/// An answer, to be given and to be noted. What can fail of its making is over before anything
/// changes.
#[derive(Drop)]
pub(crate) struct ToldAnswer {
    pub(crate) given: Answer,
    pub(crate) noted: Answer,
}

impl ToldAnswer {
    fn of(answer: Answer) -> Result<ToldAnswer, AllocError>
        ensures view { IfOk result (λ told. told_view told ≡ answer_view answer) }
        ensures twice { IfOk result IsTwice }
    {
        Ok(ToldAnswer {
            noted: answer.copy()?,
            given: answer,
        })
    }

    fn done() -> ToldAnswer
        ensures view { told_view result ≡ done }
        ensures twice { IsTwice result }
    {
        ToldAnswer {
            noted: Answer::Done,
            given: Answer::Done,
        }
    }

    fn of_ref(name: RefName) -> ToldAnswer
        ensures view { told_view result
            ≡ value_told (ref_datum (name_view name).owner (name_view name).number) }
        ensures twice { IsTwice result }
    {
        ToldAnswer {
            noted: Answer::Value(Value::Ref(name)),
            given: Answer::Value(Value::Ref(name)),
        }
    }
}

/// Answers an ask of the text, and does what is asked; none where that is not for the text to ask.
/// It fails only for want of memory, and has then changed nothing.
pub(crate) fn tell(
    alloc: Global,
    names: &mut SharedDefinitions,
    refs: &mut RefTable<RingHistory>,
    ask: &Ask,
) -> Result<Option<ToldAnswer>, AllocError>
    ensures told { (s : SharedData) → HoldsShared (defined_bindings names.old) refs.old s
        → IfOk result (λ told. ToldBehind s (ask_view ask.now) (defined_bindings names.new) refs.new
        (option_map told_view told)) }
    ensures stays { (s : SharedData) → HoldsShared (defined_bindings names.old) refs.old s
        → OnErr result (HoldsShared (defined_bindings names.new) refs.new s) }
    ensures twice { IfOk result (λ told. IfSome told IsTwice) }
{
    match ask {
        Ask::Resolve { namespace, symbol } => {
            let found = names.resolve(alloc, namespace.as_str(), symbol.as_str())?;
            Ok(Some(ToldAnswer::of(Answer::Resolution(resolution_of(found)))?))
        }
        Ask::Define { name, binding, .. } => {
            names.define(alloc, copy_text(name)?, binding.copy()?)?;
            Ok(Some(ToldAnswer::done()))
        }
        Ask::NewRef { value, .. } => Ok(Some(ToldAnswer::of_ref(make(alloc, refs, value)?))),
        Ask::Read(name) => match read(refs, *name)? {
            Some(answer) => Ok(Some(ToldAnswer::of(answer)?)),
            None => Ok(None),
        },
        _ => Ok(None),
    }
}

// No session's results are known.
fn resolution_of(found: Found) -> Resolution
    ensures { resolution_view result ≡ meant.named_in_text (found_view found) }
{
    match found {
        Found::Resolution(resolution) => resolution,
        Found::Latest(_) => Resolution::Value(Value::Nil),
    }
}

// Makes a shared ref. It fails only for want of memory.
fn make(
    alloc: Global,
    refs: &mut RefTable<RingHistory>,
    value: &Value,
) -> Result<RefName, AllocError>
    ensures made { (rs : List Ref) → HoldsRefs refs.old rs → OnOk result (HoldsRefs refs.new
        (rs ++ new_ref (record { stamp = 0; content = view value.now }) 0 10 ∷ [])) }
    ensures name { (rs : List Ref) → HoldsRefs refs.old rs → IfOk result (λ name.
        name_view name ≡ record { owner = shared; number = length rs }) }
    ensures stays { (rs : List Ref) → HoldsRefs refs.old rs → OnErr result (HoldsRefs refs.new rs) }
{
    refs.make(alloc, Owner::Shared, copy(value)?, BOUNDS)
}

// What a ref has, if it is there: no tenant has one yet. It fails only where 2^63 owners share the
// value.
fn read(refs: &mut RefTable<RingHistory>, name: RefName) -> Result<Option<Answer>, AllocError>
    ensures read { (rs : List Ref) → HoldsRefs refs.old rs → IfOk result (λ told.
        option_map answer_view told
        ≡ option_map (λ d. reading (found d)) (value_in_ref (name_view name).owner (name_view name).number rs)) }
    ensures stays { (rs : List Ref) → HoldsRefs refs.old rs → HoldsRefs refs.new rs }
{
    match refs.read(0, name, None)? {
        Some(read) => Ok(Some(Answer::Reading(read))),
        None => Ok(None),
    }
}

/// Whether the text may ask this now. It takes no memory.
pub(crate) fn is_told(refs: &RefTable<RingHistory>, ask: &Ask) -> bool
    ensures { (s : SharedData) → HoldsRefs refs.now s.refs → result ≡ false
        → meant.told_in_text (ask_view ask.now) s ≡ None }
{
    match ask {
        Ask::Resolve { .. } | Ask::Define { .. } | Ask::NewRef { .. } => true,
        Ask::Read(name) => refs.history_count(0, *name).is_some(),
        _ => false,
    }
}
