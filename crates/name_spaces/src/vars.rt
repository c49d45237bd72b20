// What the names of one namespace are bound to.
use repl_asks::Binding;
use std::alloc::{AllocError, Global};
use std::collections::BTreeMap;
use std::sync::ArcStr;

/// The names of one namespace with what they are bound to. None is ever unbound.
#[derive(Drop)]
pub(crate) struct Vars {
    bindings: BTreeMap<String, Binding>,
}

impl Vars {
    ghost use Rattle.std.specs.Prelude.{◌≡◌, OnOk, OnErr, option_map};
    ghost use Rattle.std.specs.Arc.{arc_str_bytes};
    ghost use Rattle.repl_asks.specs.Inside.View.{binding_view};
    ghost use Rattle.name_spaces.specs.Bindings.{nothing_bound, rebound};
    ghost use Rattle.name_spaces.specs.Inside.Seen.{bound_in};

    /// No name is bound. It takes no memory.
    pub(crate) fn new(alloc: Global) -> Vars
        ensures { bound_in result ≡ nothing_bound }
    {
        Vars {
            bindings: BTreeMap::new(alloc),
        }
    }

    /// What the name is bound to. It takes about the logarithm of the number of names.
    pub(crate) fn binding(&self, name: &str) -> Option<&Binding>
        ensures { option_map (λ b. binding_view b.now) result ≡ bound_in self.now name.now }
    {
        self.bindings.get(name)
    }

    /// Binds a name, in place of what it was bound to. It takes about the logarithm of the number
    /// of names, and fails only for want of memory.
    pub(crate) fn define(
        &mut self,
        alloc: Global,
        name: ArcStr,
        binding: Binding,
    ) -> Result<(), AllocError>
        ensures bound { OnOk result (bound_in self.new
            ≡ rebound (bound_in self.old) (arc_str_bytes name) (binding_view binding)) }
        ensures kept { OnErr result (bound_in self.new ≡ bound_in self.old) }
    {
        let key = String::from_str(alloc, name.as_str())?;
        drop(self.bindings.insert(key, binding)?);
        Ok(())
    }
}
