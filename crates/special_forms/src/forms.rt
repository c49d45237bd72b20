// Forms in a row, by index in what holds them.
#![tactic(auto, using(crate::proofs::Rows::row_steps))]

ghost use Rattle.std.specs.Prelude.{◌≡◌, ◌==◌, nat_le, [], ◌∷◌, drop, take, option_map, slice_get};
ghost use Rattle.std.specs.Prelude.{length, IfOk, MatchOption};
ghost use Rattle.std.specs.Arc.{arc_str_bytes};
ghost use Rattle.value_data.specs.Listed.{listed};
ghost use Rattle.value_data.specs.Inside.View.{view};
ghost use Rattle.special_forms.specs.Rows.{in_a_row};
ghost use Rattle.special_forms.specs.Inside.Bindings.{first_of, bound_name, bindings_in};
ghost use Rattle.special_forms.specs.Inside.Seen.{source_view, forms_view, let_binding_view};

use repl_values::{Sequence, Table, Value, copy, copy_text};
use std::alloc::{AllocError, Global};
use std::sync::ArcStr;

// What holds the forms: the items of a list or a vector, or the keys and values of a map, by turns.
#[derive(Debug, Drop)]
pub(crate) enum FormsHolder {
    Items(Sequence),
    Pairs(Table),
}

/// Forms in a row, from one place to another of what holds them. That is shared: the forms are
/// looked at one after another where they stand.
#[derive(Debug, Drop)]
pub struct Forms {
    source: FormsHolder,
    start: usize,
    end: usize,
}

/// A name that `let` binds, and the form of its value.
#[derive(Drop)]
pub struct LetBinding {
    pub name: ArcStr,
    pub form: Value,
}

impl Forms {
    /// The items of a list or a vector.
    pub fn of_items(items: Sequence) -> Forms
        ensures { forms_view result ≡ listed items.items }
    {
        let end = items.len();
        Forms {
            source: FormsHolder::Items(items),
            start: 0,
            end,
        }
    }

    /// The keys and values of a map, by turns.
    pub fn of_pairs(pairs: Table) -> Forms
        ensures { forms_view result ≡ in_a_row pairs.pairs }
    {
        let end = pairs.len() * 2;
        Forms {
            source: FormsHolder::Pairs(pairs),
            start: 0,
            end,
        }
    }

    /// The first form, if there is one.
    pub fn first(&self) -> Option<&Value>
        ensures { option_map (λ v. view v.now) result ≡ first_of (forms_view self.now) }
    {
        if self.start >= self.end {
            return None;
        }
        at(&self.source, self.start)
    }

    /// Whether there is no form.
    pub fn is_empty(&self) -> bool
        ensures { result ≡ (length (forms_view self.now) == 0) }
    {
        self.first().is_none()
    }

    /// How many forms there are.
    pub fn len(&self) -> usize
        ensures { result ≡ length (forms_view self.now) }
    {
        self.end
            .min(places(&self.source))
            .saturating_sub(self.start)
    }

    /// The form at a place, counted from 0, if there is one. It takes no memory, and about the
    /// logarithm of the number of forms.
    pub fn get(&self, place: usize) -> Option<&Value>
        ensures { option_map (λ v. view v.now) result ≡ slice_get (forms_view self.now) place }
    {
        let place = self.start.saturating_add(place);
        if place >= self.end {
            return None;
        }
        at(&self.source, place)
    }

    /// Whether there are two forms or more.
    pub(crate) fn has_two(&self) -> bool
        ensures { result ≡ nat_le 2 (length (forms_view self.now)) }
    {
        let second = self.start.saturating_add(1);
        second < self.end && at(&self.source, second).is_some()
    }

    /// The forms behind the first.
    pub(crate) fn behind_first(self) -> Forms
        ensures { forms_view result ≡ drop 1 (forms_view self) }
    {
        if self.start >= self.end {
            return self;
        }
        let Forms { source, start, end } = self;
        let start = start + 1;
        Forms { source, start, end }
    }

    /// Takes the first form out. It fails only where 2^63 owners share it.
    pub fn take_first(&mut self) -> Result<Option<Value>, AllocError>
        ensures { IfOk result (λ taken. MatchOption taken ((forms_view self.old ≡ [])
            × (forms_view self.new ≡ []))
            (λ form. forms_view self.old ≡ view form ∷ forms_view self.new)) }
    {
        if self.start >= self.end {
            return Ok(None);
        }
        let Some(form) = at(&self.source, self.start) else {
            return Ok(None);
        };
        let form = copy(form)?;
        self.start += 1;
        Ok(Some(form))
    }

    /// Takes the first two forms out, a name and the form of its value. It fails only for want of
    /// memory.
    pub fn take_binding(&mut self, alloc: Global) -> Result<Option<LetBinding>, AllocError>
        ensures { IfOk result (λ taken. MatchOption taken (bindings_in (forms_view self.old) ≡ [])
            (λ bound. bindings_in (forms_view self.old)
            ≡ let_binding_view bound ∷ bindings_in (forms_view self.new))) }
    {
        let Some(symbol) = self.take_first()? else {
            return Ok(None);
        };
        let Some(form) = self.take_first()? else {
            return Ok(None);
        };
        let name = bound_name(alloc, &symbol)?;
        Ok(Some(LetBinding { name, form }))
    }

    // The first form alone.
    fn first_alone(self) -> Forms
        ensures { forms_view result ≡ take 1 (forms_view self) }
    {
        if self.start >= self.end {
            return self;
        }
        let Forms {
            source,
            start,
            end: _,
        } = self;
        let end = start + 1;
        Forms { source, start, end }
    }

    /// The first form alone, and the forms behind it.
    pub fn split_first(self) -> Result<(Forms, Forms), AllocError>
        ensures first { IfOk result (λ parts. forms_view parts.0 ≡ take 1 (forms_view self)) }
        ensures behind { IfOk result (λ parts. forms_view parts.1 ≡ drop 1 (forms_view self)) }
    {
        let first = self.copy()?.first_alone();
        Ok((first, self.behind_first()))
    }

    /// No forms, out of what holds these.
    pub fn none(&self) -> Result<Forms, AllocError>
        ensures { IfOk result (λ none. forms_view none ≡ []) }
    {
        Ok(Forms {
            source: share(&self.source)?,
            start: self.start,
            end: self.start,
        })
    }

    /// The same forms once more. It takes one step and no memory, and fails only where 2^63 owners
    /// share them.
    pub fn copy(&self) -> Result<Forms, AllocError>
        ensures { IfOk result (λ copied. forms_view copied ≡ forms_view self.now) }
    {
        Ok(Forms {
            source: share(&self.source)?,
            start: self.start,
            end: self.end,
        })
    }
}

// How many forms there are in all.
fn places(source: &FormsHolder) -> usize
    ensures { result ≡ length (source_view source.now) }
{
    match source {
        FormsHolder::Items(items) => items.len(),
        FormsHolder::Pairs(pairs) => pairs.len() * 2,
    }
}

// The form at a place.
fn at(source: &FormsHolder, place: usize) -> Option<&Value>
    ensures { option_map (λ v. view v.now) result ≡ slice_get (source_view source.now) place }
{
    match source {
        FormsHolder::Items(items) => items.get(place),
        FormsHolder::Pairs(pairs) => part_at(pairs, place),
    }
}

// Keys and values stand by turns.
fn part_at(pairs: &Table, place: usize) -> Option<&Value>
    ensures { option_map (λ v. view v.now) result ≡ slice_get (in_a_row pairs.now.pairs) place }
{
    if place % 2 == 0 {
        pairs.keys().get(place / 2)
    } else {
        pairs.values().get(place / 2)
    }
}

fn share(source: &FormsHolder) -> Result<FormsHolder, AllocError>
    ensures { IfOk result (λ shared. source_view shared ≡ source_view source.now) }
{
    match source {
        FormsHolder::Items(items) => Ok(FormsHolder::Items(items.copy()?)),
        FormsHolder::Pairs(pairs) => Ok(FormsHolder::Pairs(pairs.copy()?)),
    }
}

// The name that a symbol is; what is none has no characters.
fn bound_name(alloc: Global, symbol: &Value) -> Result<ArcStr, AllocError>
    ensures { IfOk result (λ name. arc_str_bytes name ≡ bound_name (view symbol.now)) }
{
    match symbol {
        Value::Symbol(name) => copy_text(name),
        _other => ArcStr::from_str(alloc, ""),
    }
}
