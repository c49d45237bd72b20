// The namespaces that are the same for all tenants.
ghost use Rattle.std.specs.Prelude.{◌≡◌};
ghost use Rattle.repl_asks.specs.Namespaces as meant;

/// Whether the namespace of this name is the same for all tenants, `shared` or `clojure.core`.
#[tactic(auto, unfolding(crate::specs::Namespaces::is_fixed))]
pub fn is_fixed(name: &str) -> bool
    ensures { result ≡ meant.is_fixed name.now }
{
    name == "shared" || name == "clojure.core"
}
