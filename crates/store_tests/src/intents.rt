// What an attempt wants committed, in short.
use crate::given::{Given, values_of};
use core_functions::CoreFunction;
use repl_asks::{Change, Commute, Commuted, Intent};
use repl_values::{RefName, Value};
use std::alloc::{AllocError, Global};
use std::process::Abort;

/// A part of an intent. Commutes of one ref come one after the other.
#[derive(Clone, Copy)]
pub(crate) enum Want {
    Set(RefName, i64),
    /// A ref is set to another.
    Hold(RefName, RefName),
    Ensure(RefName),
    /// The function of this name is applied to a ref, with these arguments behind its value.
    Commute(RefName, &'static str, &'static [Given]),
}

pub(crate) fn intent_of(
    rt: &impl Abort,
    alloc: Global,
    wants: &[Want],
) -> Result<Intent, AllocError> {
    let mut intent = Intent {
        sets: Vec::new(alloc),
        ensured: Vec::new(alloc),
        commuted: Vec::new(alloc),
        sends: Vec::new(alloc),
    };
    for want in wants {
        add(rt, alloc, &mut intent, *want)?;
    }
    Ok(intent)
}

fn add(rt: &impl Abort, alloc: Global, intent: &mut Intent, want: Want) -> Result<(), AllocError> {
    match want {
        Want::Set(name, number) => set(intent, name, Value::Int(number)),
        Want::Hold(name, held) => set(intent, name, Value::Ref(held)),
        Want::Ensure(name) => Ok(intent.ensured.push(name)?),
        Want::Commute(name, function, given) => commute(rt, alloc, intent, name, function, given),
    }
}

fn set(intent: &mut Intent, name: RefName, now: Value) -> Result<(), AllocError> {
    intent.sets.push(Change { name, now })?;
    Ok(())
}

fn commute(
    rt: &impl Abort,
    alloc: Global,
    intent: &mut Intent,
    name: RefName,
    function: &str,
    given: &[Given],
) -> Result<(), AllocError> {
    let Some(function) = CoreFunction::named(function) else {
        panic!(rt; "unknown function {function}");
    };
    let arguments = values_of(alloc, given)?;
    let commute = Commute {
        function,
        arguments,
    };
    if let Some(last) = intent.commuted.last_mut() {
        if last.name == name {
            last.commutes.push(commute)?;
            return Ok(());
        }
    }
    let mut commutes = Vec::new(alloc);
    commutes.push(commute)?;
    intent.commuted.push(Commuted { name, commutes })?;
    Ok(())
}
