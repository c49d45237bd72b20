// Which definitions are refused, and which forms are definitions.
ghost use Rattle.std.specs.Prelude.{◌≡◌, Some, None, if◌then◌else◌, option_map, IfOk};
ghost use Rattle.value_data.specs.Datum.{Items, item, list};
ghost use Rattle.value_data.specs.Inside.View.{view};
ghost use Rattle.repl_asks.specs.Namespaces.{is_fixed};
ghost use Rattle.repl_values.specs.Failure as failures;
ghost use Rattle.repl_values.specs.declared.rule.Rule.{Rule};
ghost use Rattle.repl_values.specs.Inside.FaultView.{failure_of};
ghost use Rattle.repl_asks.specs.Inside.View.{binding_view};
ghost use Rattle.special_forms.specs.declared.special.SpecialForm.{SpecialForm};
ghost use Rattle.evaluation_rules.specs.SharedText as meant;

use evaluation_rules::Occasion;
use repl_asks::{Binding, is_fixed};
use repl_values::{Fault, Rule, Sequence, Value, broken_rule, is_plain, namespace_is_fixed};
use special_forms::SpecialForm;
use std::alloc::{AllocError, Global};

/// Why a name is not bound so in this namespace, if it is not. It fails only for want of memory.
pub fn refuse_definition(
    alloc: Global,
    occasion: Occasion,
    namespace: &str,
    binding: &Binding,
) -> Result<Option<Fault>, AllocError>
    ensures { IfOk result (λ refused. option_map failure_of refused
        ≡ meant.refused_definition occasion namespace.now (binding_view binding.now)) }
{
    match occasion {
        Occasion::Form | Occasion::Action => refuse_fixed(alloc, namespace),
        Occasion::SharedText => refuse_unshared(alloc, binding),
    }
}

// A namespace that is the same for all stays as it is.
fn refuse_fixed(alloc: Global, namespace: &str) -> Result<Option<Fault>, AllocError>
    ensures { IfOk result (λ refused. option_map failure_of refused ≡ (if is_fixed namespace.now
        then Some (failures.namespace_is_fixed namespace.now) else None)) }
{
    if is_fixed(namespace) {
        return Ok(Some(namespace_is_fixed(alloc, namespace)?));
    }
    Ok(None)
}

// What all tenants share has no atoms, agents or vars, nor refs inside.
fn refuse_unshared(alloc: Global, binding: &Binding) -> Result<Option<Fault>, AllocError>
    ensures { IfOk result (λ refused. option_map failure_of refused
        ≡ (if meant.may_be_shared (binding_view binding.now) then None
        else Some (failures.broken_rule Rule.SharedTextDefinesAlone))) }
{
    if may_be_shared(binding) {
        return Ok(None);
    }
    Ok(Some(broken_rule(alloc, Rule::SharedTextDefinesAlone)?))
}

fn may_be_shared(binding: &Binding) -> bool
    ensures { result ≡ meant.may_be_shared (binding_view binding.now) }
{
    match binding {
        Binding::Value(value) => is_plain(value) || is_ref(value),
        Binding::Function(_) => true,
    }
}

#[tactic(auto, using(value_data::proofs::Views::value_views))]
fn is_ref(value: &Value) -> bool
    ensures { result ≡ meant.is_ref (view value.now) }
{
    match value {
        Value::Ref(_) => true,
        _other => false,
    }
}

/// Whether the form is `(def ..)` or `(defn ..)`, whatever stands in it.
#[tactic(auto, using(value_data::proofs::Views::value_views))]
pub fn is_definition(form: &Value) -> bool
    ensures { result ≡ meant.is_definition (view form.now) }
{
    match form {
        Value::List(items) => begins_definition(items),
        _other => false,
    }
}

fn begins_definition(items: &Sequence) -> bool
    ensures { result ≡ meant.is_definition (list items.now.items) }
{
    match items.get(0) {
        Some(head) => names_definition(head),
        None => false,
    }
}

#[tactic(auto, using(value_data::proofs::Views::value_views))]
fn names_definition(head: &Value) -> bool
    ensures { (ds : Items) → result ≡ meant.is_definition (list (item (view head.now) ds)) }
{
    match head {
        Value::Symbol(name) => is_named_definition(SpecialForm::named(name.as_str())),
        _other => false,
    }
}

fn is_named_definition(special: Option<SpecialForm>) -> bool
    ensures { result ≡ meant.is_named_definition special }
{
    match special {
        Some(SpecialForm::Def) => true,
        Some(SpecialForm::Defn) => true,
        _ => false,
    }
}
