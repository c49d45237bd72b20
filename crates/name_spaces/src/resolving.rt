// How symbols are resolved in the namespaces of a tenant, and in the text of the shared one.
ghost use Rattle.std.specs.Prelude.{◌≡◌, IfOk, option_map};
ghost use Rattle.repl_values.specs.Inside.FaultView.{failure_of};
ghost use Rattle.core_functions.specs.StoreNames.{store_function_named};
ghost use Rattle.repl_asks.specs.Exchange.{names_function, names_nothing};
ghost use Rattle.repl_asks.specs.Inside.View.{binding_view, named_view, resolution_view};
ghost use Rattle.name_spaces.specs.Latest.{latest_named};
ghost use Rattle.name_spaces.specs.Namespaces.{bindings_of};
ghost use Rattle.name_spaces.specs.Resolving.{resolved, simple_symbol, namespace_named, var_in};
ghost use Rattle.name_spaces.specs.Resolving.{unbound_symbol, resolution_outside_core};
ghost use Rattle.name_spaces.specs.Resolving.{bound_resolution, found_resolution};
ghost use Rattle.name_spaces.specs.Inside.Seen.{bound_in, bound_among, found_view};
ghost use Rattle.name_spaces.specs.Inside.Seen.{namespaces_of, shared_in};

use crate::found::Found;
use crate::latest::Latest;
use crate::spaces::Spaces;
use crate::vars::Vars;
use core_functions::{CoreFunction, StoreFunction};
use repl_asks::{Binding, NamedFunction, Resolution};
use repl_values::{Fault, copy, no_such_namespace, no_such_var, unresolved_symbol};
use std::alloc::{AllocError, Global};
use std::collections::BTreeMap;
use std::sync::Arc;

// The namespace that every tenant sees beside its own.
const SHARED: &str = "shared";

impl Spaces {
    /// What a symbol in this namespace names. One without a slash is looked up in the namespace,
    /// then among the latest results, then among the functions of the language; in a namespace that
    /// is not there nothing is bound. One with a slash is looked up in the namespace that it names,
    /// and nowhere else: `clojure.core` is not found here, since evaluation asks for none of its
    /// symbols. It takes about the logarithm of the number of namespaces and of names, and fails
    /// only for want of memory.
    #[tactic(auto, unfolding(crate::specs::Inside::Seen::namespaces_of))]
    pub fn resolve(&self, alloc: Global, namespace: &str, symbol: &str) -> Result<Found, AllocError>
        ensures { IfOk result (λ found. found_view found
            ≡ resolved (shared_in self.now) (namespaces_of self.now) namespace.now symbol.now) }
    {
        resolve_among(
            alloc,
            self.shared.vars(),
            &self.namespaces,
            namespace,
            symbol,
        )
    }
}

// What a symbol names for one who sees what `shared` binds, and these namespaces of its own.
#[tactic(auto, unfolding(crate::specs::Resolving::resolved))]
pub(crate) fn resolve_among(
    alloc: Global,
    shared: &Vars,
    own: &BTreeMap<String, Vars>,
    namespace: &str,
    symbol: &str,
) -> Result<Found, AllocError>
    ensures { IfOk result (λ found. found_view found
        ≡ resolved (bound_in shared.now) (bound_among own.now) namespace.now symbol.now) }
{
    if symbol == "/" {
        return resolve_simple(alloc, named(shared, own, namespace), symbol);
    }
    match symbol.split_once('/') {
        Some((space, name)) => {
            resolve_qualified(alloc, named(shared, own, space), symbol, space, name)
        }
        None => resolve_simple(alloc, named(shared, own, namespace), symbol),
    }
}

// The namespace of this name.
fn named<'a>(shared: &'a Vars, own: &'a BTreeMap<String, Vars>, space: &str) -> Option<&'a Vars>
    ensures { option_map (λ v. bound_in v.now) result
        ≡ namespace_named (bound_in shared.now) (bound_among own.now) space.now }
{
    if space == SHARED {
        return Some(shared);
    }
    own.get(space)
}

// A symbol without a slash, in what was found of its namespace.
fn resolve_simple(alloc: Global, vars: Option<&Vars>, symbol: &str) -> Result<Found, AllocError>
    ensures { IfOk result (λ found. found_view found ≡ simple_symbol symbol.now
        (bindings_of (option_map (λ v. bound_in v.now) vars.entry) symbol.now)) }
{
    match binding_in(vars, symbol) {
        Some(binding) => find_bound(binding),
        None => find_unbound(alloc, symbol),
    }
}

// A symbol with a slash, in what was found of the namespace that it names.
fn resolve_qualified(
    alloc: Global,
    vars: Option<&Vars>,
    symbol: &str,
    space: &str,
    name: &str,
) -> Result<Found, AllocError>
    ensures { IfOk result (λ found. found_view found ≡ found_resolution
        (var_in (option_map (λ v. bound_in v.now) vars.entry) symbol.now space.now name.now)) }
{
    let Some(vars) = vars else {
        return Ok(nothing(no_such_namespace(alloc, space)?));
    };
    match vars.binding(name) {
        Some(binding) => find_bound(binding),
        None => Ok(nothing(no_such_var(alloc, symbol)?)),
    }
}

fn binding_in<'a>(vars: Option<&'a Vars>, name: &str) -> Option<&'a Binding>
    ensures { option_map (λ b. binding_view b.now) result
        ≡ bindings_of (option_map (λ v. bound_in v.now) vars.entry) name.now }
{
    vars?.binding(name)
}

// What a symbol names that is bound to this.
fn find_bound(binding: &Binding) -> Result<Found, AllocError>
    ensures { IfOk result (λ found. found_view found
        ≡ found_resolution (bound_resolution (binding_view binding.now))) }
{
    let resolution = match binding {
        Binding::Value(value) => Resolution::Value(copy(value)?),
        Binding::Function(function) => {
            Resolution::Function(NamedFunction::Program(Arc::try_clone(function)?))
        }
    };
    Ok(Found::Resolution(resolution))
}

// What a symbol names where nothing binds it.
fn find_unbound(alloc: Global, symbol: &str) -> Result<Found, AllocError>
    ensures { IfOk result (λ found. found_view found
        ≡ unbound_symbol symbol.now (latest_named symbol.now)) }
{
    if let Some(latest) = Latest::named(symbol) {
        return Ok(Found::Latest(latest));
    }
    match CoreFunction::named(symbol) {
        Some(function) => Ok(function_found(NamedFunction::Core(function))),
        None => outside_core(alloc, symbol),
    }
}

// What a symbol names that nothing binds and that names no core function.
fn outside_core(alloc: Global, symbol: &str) -> Result<Found, AllocError>
    ensures { IfOk result (λ found. found_view found
        ≡ found_resolution (resolution_outside_core symbol.now (store_function_named symbol.now))) }
{
    match StoreFunction::named(symbol) {
        Some(function) => Ok(function_found(NamedFunction::Store(function))),
        None => Ok(nothing(unresolved_symbol(alloc, symbol)?)),
    }
}

fn function_found(function: NamedFunction) -> Found
    ensures { found_view result ≡ found_resolution (names_function (named_view function)) }
{
    Found::Resolution(Resolution::Function(function))
}

fn nothing(fault: Fault) -> Found
    ensures { found_view result ≡ found_resolution (names_nothing (failure_of fault)) }
{
    Found::Resolution(Resolution::Nothing(fault))
}
