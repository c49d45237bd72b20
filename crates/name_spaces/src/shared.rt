// The shared namespace: what its names are bound to, and how its text is read.
ghost use Rattle.std.specs.Prelude.{◌≡◌, IfOk, OnOk, OnErr};
ghost use Rattle.std.specs.Arc.{arc_str_bytes};
ghost use Rattle.repl_asks.specs.Inside.View.{binding_view};
ghost use Rattle.name_spaces.specs.Bindings.{nothing_bound, rebound};
ghost use Rattle.name_spaces.specs.Namespaces.{no_namespaces};
ghost use Rattle.name_spaces.specs.Resolving.{resolved};
ghost use Rattle.name_spaces.specs.Inside.Seen.{bound_in, defined_bindings, found_view};
ghost use Rattle.name_spaces.specs.Inside.Seen.{shared_bindings};

use crate::found::Found;
use crate::resolving::resolve_among;
use crate::vars::Vars;
use repl_asks::Binding;
use std::alloc::{AllocError, Global};
use std::collections::BTreeMap;
use std::sync::{Arc, ArcStr};

/// What the shared namespace binds. It never changes, and all copies have it in common.
#[derive(Drop)]
pub struct SharedNames {
    pub(crate) vars: Arc<Vars>,
}

impl SharedNames {
    /// No name is bound. It fails only for want of memory.
    pub fn none(alloc: Global) -> Result<SharedNames, AllocError>
        ensures { IfOk result (λ made. shared_bindings made ≡ nothing_bound) }
    {
        SharedDefinitions::none(alloc).finish(alloc)
    }

    /// One more owner of the same names. It takes one step and no memory, and fails only where 2^63
    /// owners share them.
    pub fn copy(&self) -> Result<SharedNames, AllocError>
        ensures { IfOk result (λ copied. shared_bindings copied ≡ shared_bindings self.now) }
    {
        Ok(SharedNames {
            vars: Arc::try_clone(&self.vars)?,
        })
    }

    pub(crate) fn vars(&self) -> &Vars
        ensures { bound_in result.now ≡ shared_bindings self.now }
    {
        &self.vars
    }
}

/// What the shared namespace binds so far, while its text is read.
#[derive(Drop)]
pub struct SharedDefinitions {
    pub(crate) vars: Vars,
}

impl SharedDefinitions {
    /// No name is bound. It takes no memory.
    pub fn none(alloc: Global) -> SharedDefinitions
        ensures { defined_bindings result ≡ nothing_bound }
    {
        SharedDefinitions {
            vars: Vars::new(alloc),
        }
    }

    /// Binds a name, in place of what it was bound to. It takes about the logarithm of the number
    /// of names, and fails only for want of memory; then all stays as it was.
    pub fn define(
        &mut self,
        alloc: Global,
        name: ArcStr,
        binding: Binding,
    ) -> Result<(), AllocError>
        ensures bound { OnOk result (defined_bindings self.new
            ≡ rebound (defined_bindings self.old) (arc_str_bytes name) (binding_view binding)) }
        ensures kept { OnErr result (defined_bindings self.new ≡ defined_bindings self.old) }
    {
        self.vars.define(alloc, name, binding)
    }

    /// What a symbol in this namespace names for the text, which sees no tenant's namespaces. It
    /// takes about the logarithm of the number of names, and fails only for want of memory.
    pub fn resolve(&self, alloc: Global, namespace: &str, symbol: &str) -> Result<Found, AllocError>
        ensures { IfOk result (λ found. found_view found
            ≡ resolved (defined_bindings self.now) no_namespaces namespace.now symbol.now) }
    {
        let own = BTreeMap::new(alloc);
        resolve_among(alloc, &self.vars, &own, namespace, symbol)
    }

    /// The names as they stay. It fails only for want of memory.
    pub fn finish(self, alloc: Global) -> Result<SharedNames, AllocError>
        ensures { IfOk result (λ made. shared_bindings made ≡ defined_bindings self) }
    {
        Ok(SharedNames {
            vars: Arc::new(alloc, self.vars)?,
        })
    }
}
