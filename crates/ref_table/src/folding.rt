// What was commuted is made again, of the values that refs have when it is committed.
ghost use Rattle.std.specs.Prelude.{◌≡◌, ℕ, List, ◌∷◌, Some, true, map, option_map, IfOk};
ghost use Rattle.std.specs.List.{list_all};
ghost use Rattle.value_data.specs.Inside.View.{view};
ghost use Rattle.repl_values.specs.Inside.FaultView.{Gives};
ghost use Rattle.core_functions.specs.Meaning.{meaning};
ghost use Rattle.repl_asks.specs.Inside.View.{name_view, change_view, commute_view, commuted_view};
ghost use Rattle.ref_table.specs.Numbered.{Entry};
ghost use Rattle.ref_table.specs.Store.{newest_value};
ghost use Rattle.ref_table.specs.Commit.{takes_its_arguments, all_take, result_of, folded_value};
ghost use Rattle.ref_table.specs.Commit.{folded_from, all_folded};
ghost use Rattle.ref_table.specs.Refs.{TableRefs, store_of};
ghost use Rattle.ref_table.specs.Standing.{TableStands};

use crate::fitting::may_hold;
use crate::table::RefTable;
use core_functions::{CoreFunction, apply};
use ref_history::History;
use repl_asks::{Change, Commute, Commuted};
use repl_values::{ApplyError, RefName, Rule, Value, broken_rule, copy};
use std::alloc::{AllocError, Global};

impl<H: History> RefTable<H> {
    // What the refs that were commuted get, one after the other, up to the first fault. It changes
    // nothing, and takes a step for each commute beside those of its function.
    pub(crate) fn fold_all(
        &self,
        alloc: Global,
        caller: u64,
        commuted: &[Commuted],
    ) -> Result<Vec<Change>, ApplyError>
        requires { all_take (map commuted_view commuted.now) ≡ true }
        ensures folded { (r : TableRefs) (points : List (Entry ℕ)) → TableStands H.stands self.now r
            → Gives (λ changes. map change_view changes.items) result
            (all_folded (λ name. newest_value name (store_of caller points r))
            (map commuted_view commuted.now)) }
        ensures names { IfOk result (λ changes. map (λ c. name_view c.name) changes.items
            ≡ map (λ c. name_view c.name) commuted.now) }
    {
        let mut changes = Vec::with_capacity(alloc, commuted.len())?;
        for one in commuted {
            let now = self.fold_newest(alloc, caller, one)?;
            changes.push(Change {
                name: one.name,
                now,
            })?;
        }
        Ok(changes)
    }

    // What one of them gets.
    fn fold_newest(
        &self,
        alloc: Global,
        caller: u64,
        commuted: &Commuted,
    ) -> Result<Value, ApplyError>
        requires { list_all takes_its_arguments (commuted_view commuted.now).commutes ≡ true }
        ensures { (r : TableRefs) (points : List (Entry ℕ)) → TableStands H.stands self.now r
            → Gives view result (folded_from (commuted_view commuted.now)
            (newest_value (name_view commuted.now.name) (store_of caller points r))) }
    {
        match self.newest(caller, commuted.name) {
            Some(value) => fold_ref(alloc, commuted, copy(value)?),
            None => Ok(Value::Nil),
        }
    }

    fn newest(&self, caller: u64, name: RefName) -> Option<&Value>
        ensures { (r : TableRefs) (points : List (Entry ℕ)) → TableStands H.stands self.now r
            → option_map (λ v. view v.now) result
            ≡ newest_value (name_view name) (store_of caller points r) }
    {
        self.history.newest(self.directory.id_of(caller, name)?)
    }
}

// What a ref with this value gets, if it may hold that.
fn fold_ref(alloc: Global, commuted: &Commuted, value: Value) -> Result<Value, ApplyError>
    requires { list_all takes_its_arguments (commuted_view commuted.now).commutes ≡ true }
    ensures { Gives view result (folded_from (commuted_view commuted.now) (Some (view value))) }
{
    let now = fold_commutes(alloc, &commuted.commutes, value)?;
    if may_hold(commuted.name.owner, &now) {
        Ok(now)
    } else {
        Err(ApplyError::Fault(broken_rule(alloc, Rule::SharedRefsArePlain)?))
    }
}

// Each is applied to what the one before it gave.
fn fold_commutes(alloc: Global, commutes: &[Commute], value: Value) -> Result<Value, ApplyError>
    requires { list_all takes_its_arguments (map commute_view commutes.now) ≡ true }
    ensures { Gives view result (folded_value (map commute_view commutes.now) (view value)) }
{
    let mut now = value;
    for commute in commutes {
        now = apply_commute(alloc, commute, now)?;
    }
    Ok(now)
}

// What a function prints is dropped, so it is not even put together: its value is nil.
fn apply_commute(alloc: Global, commute: &Commute, value: Value) -> Result<Value, ApplyError>
    requires { takes_its_arguments (commute_view commute.now) ≡ true }
    ensures { let c = commute_view commute.now in
        Gives view result (result_of (meaning c.function (view value ∷ c.arguments))) }
{
    match commute.function {
        CoreFunction::Print(_) => Ok(Value::Nil),
        function => {
            let values = with_arguments(alloc, value, &commute.arguments)?;
            Ok(apply(alloc, function, &values)?.value)
        }
    }
}

// The value, and copies of the arguments behind it.
fn with_arguments(
    alloc: Global,
    value: Value,
    arguments: &[Value],
) -> Result<Vec<Value>, AllocError>
    ensures { IfOk result (λ values. map view values.items
        ≡ view value ∷ map view arguments.now) }
{
    let mut values = Vec::new(alloc);
    values.push(value)?;
    for argument in arguments {
        values.push(copy(argument)?)?;
    }
    Ok(values)
}
