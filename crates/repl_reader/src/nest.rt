// Forms inside forms.
ghost use Rattle.std.specs.Prelude.{◌≡◌, IfOk, MatchResult};
ghost use Rattle.value_data.specs.Datum.{Datum, list, symbol, item, no_items};
ghost use Rattle.value_data.specs.Inside.View.{view, items_view};
ghost use Rattle.repl_reader.specs.Reading.{begins};
ghost use Rattle.repl_reader.specs.Grammar.{Reads, IsForm, unmatched, nests_too_deep};
ghost use Rattle.repl_reader.specs.Grammar.{form_or_fault};
ghost use Rattle.repl_reader.specs.Grammar.{wrapped_reading, collection_reading, enclosed_reading};
ghost use Rattle.repl_reader.specs.Inside.View.{bracket_view, mark_symbol, form_reading_view};
ghost use Rattle.repl_reader.specs.Inside.View.{IsFrontOf};
ghost use Rattle.repl_reader.specs.Inside.View.{IsRowReading, IsMarked, IsOpened};

use crate::fault::{FaultKind, break_with};
use crate::maps::read_map;
use crate::next::{Next, read_next};
use crate::reading::{Bracket, FormReading, MacroCharacter};
use repl_values::{Sequence, Value};
use std::alloc::{AllocError, Global};
use std::sync::ArcStr;

/// How deep forms may be nested.
pub(crate) const MOST_NESTED: usize = 64;

/// Forms in a row, and what stands after the last.
#[derive(Drop)]
pub(crate) struct RowReading<'a> {
    pub forms: Vec<Value>,
    pub after: FormReading<'a>,
}

/// What a text begins with, dropped forms apart.
enum Front<'a> {
    Dropping(&'a str),
    Read(FormReading<'a>),
}

/// The forms that a text begins with, inside `depth` openings.
#[cycle(nest)]
pub(crate) fn read_row(
    alloc: Global,
    text: &str,
    depth: usize,
) -> Result<RowReading<'_>, AllocError>
    ensures { IfOk result (λ row. IsRowReading depth text.now row) }
{
    let mut forms = Vec::new(alloc);
    let mut text = text;
    loop {
        match read_form(alloc, text, depth)? {
            FormReading::Form(form, rest) => {
                forms.push(form)?;
                text = rest;
            }
            after => return Ok(RowReading { forms, after }),
        }
    }
}

/// The form that a text begins with once the forms after each `#_` are dropped.
#[cycle(nest)]
fn read_form(alloc: Global, text: &str, depth: usize) -> Result<FormReading<'_>, AllocError>
    ensures { IfOk result (λ r. Reads depth text.now (form_reading_view r)) }
{
    let mut to_drop: usize = 0;
    let mut text = text;
    loop {
        let reading = match read_front(alloc, text, depth)? {
            Front::Dropping(rest) => {
                to_drop += 1;
                text = rest;
                continue;
            }
            Front::Read(reading) => reading,
        };
        if to_drop == 0 {
            return Ok(reading);
        }
        match behind_form(reading) {
            Ok(rest) => text = rest,
            Err(other) => return form_or_fault(alloc, other),
        }
        to_drop -= 1;
    }
}

// What follows a form that is dropped, or what is no form.
fn behind_form<'a>(reading: FormReading<'a>) -> Result<&'a str, FormReading<'a>>
    ensures { MatchResult result (λ rest. (d : Datum)
        × (form_reading_view reading.entry ≡ begins d rest.now))
        (λ other. (form_reading_view other ≡ form_reading_view reading.entry)
        × (IsForm (form_reading_view other) → ⊥)) }
{
    match reading {
        FormReading::Form(_, rest) => Ok(rest),
        other => Err(other),
    }
}

#[cycle(nest)]
fn read_front(alloc: Global, text: &str, depth: usize) -> Result<Front<'_>, AllocError>
    ensures { IfOk result (λ p. IsFrontOf depth text.now p) }
{
    match read_next(alloc, text)? {
        Next::Settled(reading) => Ok(Front::Read(reading)),
        Next::Dropping(rest) => Ok(Front::Dropping(rest)),
        Next::Marking(mark, rest) => Ok(Front::Read(read_marked(alloc, mark, rest, depth)?)),
        Next::Opening(bracket, rest) => {
            Ok(Front::Read(read_enclosed(alloc, bracket, rest, depth)?))
        }
    }
}

#[cycle(nest)]
fn read_marked<'a>(
    alloc: Global,
    mark: MacroCharacter,
    text: &'a str,
    depth: usize,
) -> Result<FormReading<'a>, AllocError>
    ensures { IfOk result (λ r. IsMarked depth (mark_symbol mark) text.now (form_reading_view r)) }
{
    if depth >= MOST_NESTED {
        return too_deep(alloc, text);
    }
    let reading = read_form(alloc, text, depth + 1)?;
    wrapped_reading(alloc, mark, reading)
}

#[cycle(nest)]
fn read_enclosed<'a>(
    alloc: Global,
    bracket: Bracket,
    text: &'a str,
    depth: usize,
) -> Result<FormReading<'a>, AllocError>
    ensures { IfOk result (λ r. IsOpened depth (bracket_view bracket) text.now
        (form_reading_view r)) }
{
    if depth >= MOST_NESTED {
        return too_deep(alloc, text);
    }
    let row = read_row(alloc, text, depth + 1)?;
    enclosed_reading(alloc, bracket, row)
}

// The character before the text opens one nesting too many.
fn too_deep(alloc: Global, text: &str) -> Result<FormReading<'static>, AllocError>
    ensures { IfOk result (λ r. form_reading_view r ≡ nests_too_deep text.now) }
{
    let left = text.len() + 1;
    Ok(FormReading::Broken(break_with(alloc, FaultKind::TooDeep, left, "")?))
}

// A form is owed: a closing character or the end of the text is a fault in its place.
fn form_or_fault<'a>(alloc: Global, reading: FormReading<'a>) -> Result<FormReading<'a>, AllocError>
    ensures { IfOk result (λ r. form_reading_view r
        ≡ form_or_fault (form_reading_view reading.entry)) }
{
    match reading {
        FormReading::Closing(bracket, rest) => unmatched(alloc, bracket, rest),
        FormReading::End => Ok(FormReading::Broken(break_with(alloc, FaultKind::Eof, 0, "")?)),
        FormReading::Form(form, rest) => Ok(FormReading::Form(form, rest)),
        FormReading::Broken(fault) => Ok(FormReading::Broken(fault)),
    }
}

fn unmatched(
    alloc: Global,
    bracket: Bracket,
    rest: &str,
) -> Result<FormReading<'static>, AllocError>
    ensures { IfOk result (λ r. form_reading_view r ≡ unmatched (bracket_view bracket) rest.now) }
{
    let fault = break_with(
        alloc,
        FaultKind::Unmatched,
        rest.len() + 1,
        bracket.closing(),
    )?;
    Ok(FormReading::Broken(fault))
}

fn wrapped_reading<'a>(
    alloc: Global,
    mark: MacroCharacter,
    reading: FormReading<'a>,
) -> Result<FormReading<'a>, AllocError>
    ensures { IfOk result (λ r. form_reading_view r
        ≡ wrapped_reading (mark_symbol mark) (form_reading_view reading.entry)) }
{
    match reading {
        FormReading::Form(form, rest) => Ok(FormReading::Form(
            marked_list(alloc, mark, form)?,
            rest,
        )),
        FormReading::Closing(bracket, rest) => unmatched(alloc, bracket, rest),
        FormReading::End => Ok(FormReading::Broken(break_with(alloc, FaultKind::Eof, 0, "")?)),
        FormReading::Broken(fault) => Ok(FormReading::Broken(fault)),
    }
}

fn marked_list(alloc: Global, mark: MacroCharacter, form: Value) -> Result<Value, AllocError>
    ensures { IfOk result (λ v. view v
        ≡ list (item (symbol (mark_symbol mark)) (item (view form) no_items))) }
{
    let mut forms = Vec::with_capacity(alloc, 2)?;
    forms.push(Value::Symbol(ArcStr::from_str(alloc, mark.symbol())?))?;
    forms.push(form)?;
    Ok(Value::List(Sequence::from_vec(alloc, forms)?))
}

fn enclosed_reading<'a>(
    alloc: Global,
    bracket: Bracket,
    row: RowReading<'a>,
) -> Result<FormReading<'a>, AllocError>
    ensures { IfOk result (λ r. form_reading_view r
        ≡ enclosed_reading (bracket_view bracket) (items_view row.entry.forms.items)
        (form_reading_view row.entry.after)) }
{
    let RowReading { forms, after } = row;
    match after {
        FormReading::Closing(found, rest) => {
            if found.is(bracket) {
                collection_reading(alloc, bracket, forms, rest)
            } else {
                unmatched(alloc, found, rest)
            }
        }
        FormReading::End => Ok(FormReading::Broken(break_with(alloc, FaultKind::Eof, 0, "")?)),
        FormReading::Form(form, rest) => Ok(FormReading::Form(form, rest)),
        FormReading::Broken(fault) => Ok(FormReading::Broken(fault)),
    }
}

fn collection_reading<'a>(
    alloc: Global,
    bracket: Bracket,
    forms: Vec<Value>,
    rest: &'a str,
) -> Result<FormReading<'a>, AllocError>
    ensures { IfOk result (λ r. form_reading_view r
        ≡ collection_reading (bracket_view bracket) (items_view forms.items) rest.now) }
{
    match bracket {
        Bracket::Round => {
            let items = Sequence::from_vec(alloc, forms)?;
            Ok(FormReading::Form(Value::List(items), rest))
        }
        Bracket::Square => {
            let items = Sequence::from_vec(alloc, forms)?;
            Ok(FormReading::Form(Value::Vector(items), rest))
        }
        Bracket::Curly => read_map(alloc, forms, rest),
    }
}
