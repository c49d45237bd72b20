// The namespaces of a tenant: which are there, and how names are bound in them.
ghost use Rattle.std.specs.Prelude.{◌≡◌, ℕ, List, true, false, is_some, IfOk, OnOk, OnErr};
ghost use Rattle.std.specs.Arc.{arc_str_bytes};
ghost use Rattle.std.specs.BTreeMap.{get_by_text};
ghost use Rattle.repl_asks.specs.Inside.View.{binding_view};
ghost use Rattle.repl_asks.specs.Namespaces.{is_fixed};
ghost use Rattle.name_spaces.specs.Namespaces.{is_there, at_start, with_entered_namespace};
ghost use Rattle.name_spaces.specs.Namespaces.{with_definition, with_namespace};

use crate::shared::SharedNames;
use crate::vars::Vars;
use repl_asks::{Binding, is_fixed};
use std::alloc::{AllocError, Global};
use std::collections::BTreeMap;
use std::sync::ArcStr;

/// The namespace that is there from the start.
pub const USER: &str = "user";

/// The namespaces of one tenant, by their names, and the shared one. None is ever removed.
///
/// The fixed ones, `shared` and `clojure.core`, are no tenant's own: nobody enters them or defines
/// in them.
#[derive(Drop)]
pub struct Spaces {
    pub(crate) namespaces: BTreeMap<String, Vars>,
    pub(crate) shared: SharedNames,
    // None of them is fixed.
    ghost own: { (name : List ℕ) → is_fixed name ≡ true
        → is_some (get_by_text namespaces name) ≡ false },
}

impl Spaces {
    ghost use Rattle.name_spaces.specs.Inside.Seen.{bound_in, namespaces_of, shared_in};
    ghost use Rattle.name_spaces.specs.Inside.Seen.{shared_bindings};

    /// The namespace `user` alone, which binds nothing, beside the shared one. It fails only for
    /// want of memory.
    #[tactic(auto, unfolding(repl_asks::specs::Namespaces::is_fixed))]
    pub fn new(alloc: Global, shared: SharedNames) -> Result<Spaces, AllocError>
        ensures namespaces { IfOk result (λ made. namespaces_of made ≡ at_start) }
        ensures shared { IfOk result (λ made. shared_in made ≡ shared_bindings shared) }
    {
        let mut namespaces = BTreeMap::new(alloc);
        let user = String::from_str(alloc, USER)?;
        drop(namespaces.insert(user, Vars::new(alloc))?);
        Ok(Spaces { namespaces, shared })
    }

    /// Whether the namespace of this name is one of the tenant's own. Bytes that are no text name
    /// none. It takes about the logarithm of the number of namespaces.
    pub fn is_there(&self, name: &[u8]) -> bool
        ensures found { result ≡ is_there (namespaces_of self.now) name.now }
        ensures fixed { is_fixed name.now ≡ true → result ≡ false }
    {
        match str::from_utf8(name) {
            Ok(name) => self.namespaces.contains_key(name),
            Err(_) => false,
        }
    }

    /// Makes a namespace where it is new, and leaves one that is there as it is. A fixed one is not
    /// made. It takes about the logarithm of the number of namespaces, and fails only for want of
    /// memory; then all stays as it was.
    #[tactic(auto, unfolding(crate::specs::Namespaces::with_entered_namespace, crate::specs::Inside::Seen::namespaces_of))]
    pub fn enter(&mut self, alloc: Global, name: &str) -> Result<(), AllocError>
        ensures entered { OnOk result (namespaces_of self.new
            ≡ with_entered_namespace (namespaces_of self.old) name.now) }
        ensures kept { OnErr result (namespaces_of self.new ≡ namespaces_of self.old) }
        ensures shared { shared_in self.new ≡ shared_in self.old }
    {
        if is_fixed(name) || self.namespaces.contains_key(name) {
            return Ok(());
        }
        self.put(alloc, name, Vars::new(alloc))
    }

    /// Binds a name in a namespace, in place of what it was bound to. A namespace that is not there
    /// is made. In a fixed one nothing is bound. It takes about the logarithm of the number of
    /// namespaces and of names, and fails only for want of memory; then all stays as it was.
    #[tactic(auto, unfolding(crate::specs::Namespaces::with_definition, crate::specs::Inside::Seen::namespaces_of))]
    pub fn define(
        &mut self,
        alloc: Global,
        namespace: &str,
        name: ArcStr,
        binding: Binding,
    ) -> Result<(), AllocError>
        ensures defined { OnOk result (namespaces_of self.new
            ≡ with_definition (namespaces_of self.old)
            namespace.now (arc_str_bytes name) (binding_view binding)) }
        ensures kept { OnErr result (namespaces_of self.new ≡ namespaces_of self.old) }
        ensures shared { shared_in self.new ≡ shared_in self.old }
    {
        if is_fixed(namespace) {
            return Ok(());
        }
        match self.namespaces.get_mut(namespace) {
            Some(vars) => vars.define(alloc, name, binding),
            None => {
                let mut vars = Vars::new(alloc);
                vars.define(alloc, name, binding)?;
                self.put(alloc, namespace, vars)
            }
        }
    }

    // Puts a namespace in, in place of the one of its name.
    #[tactic(auto, unfolding(crate::specs::Inside::Seen::namespaces_of))]
    fn put(&mut self, alloc: Global, name: &str, vars: Vars) -> Result<(), AllocError>
        requires { is_fixed name.now ≡ false }
        ensures placed { OnOk result (namespaces_of self.new
            ≡ with_namespace (namespaces_of self.old) name.now (bound_in vars)) }
        ensures kept { OnErr result (namespaces_of self.new ≡ namespaces_of self.old) }
        ensures shared { shared_in self.new ≡ shared_in self.old }
    {
        let key = String::from_str(alloc, name)?;
        drop(self.namespaces.insert(key, vars)?);
        Ok(())
    }
}
