// The evaluations by the names of their actors.
ghost use Rattle.std.specs.Prelude.{◌≡◌, ◌≢◌, None, Some, OnOk, OnErr, option_map};
ghost use Rattle.server_rules.specs.Tenant.{seat_of};
ghost use Rattle.repl_core.specs.Inside.WalkAt.{walk_at};

use repl_walker::Reached;
use server_rules::Actor;
use std::alloc::{AllocError, Global};
use std::collections::BTreeMap;

/// How far the evaluations of the forms of a tenant that run have come.
///
/// The evaluation of a form begins when its actor goes on. One that is lost for want of memory is
/// made again then, over the answers that are recorded: that takes as long as the form took so far.
pub struct Walks {
    pub(crate) alloc: Global,
    // An actor keeps its place while its evaluation is taken out, so that a step takes no memory.
    // The place stands in a box: an evaluation is large, and a node of the map has many places.
    pub(crate) live: BTreeMap<Actor, Box<Option<Reached>>>,
}

impl Drop for Walks {
    fn drop(self) {
        let Walks {
            alloc: _alloc,
            live: _live,
        } = self;
    }
}

// Each takes about the logarithm of the number of forms that run.
impl Walks {
    /// No form runs yet. It takes no memory.
    pub fn new(alloc: Global) -> Walks
        ensures { (b : Actor) → walk_at result b ≡ None }
    {
        Walks {
            alloc,
            live: BTreeMap::new(alloc),
        }
    }

    pub(crate) fn get(&self, actor: Actor) -> Option<&Reached>
        ensures { option_map (λ p. p.now) result ≡ walk_at self.now actor }
    {
        (**self.live.get(&actor)?).as_ref()
    }

    /// Takes an evaluation out. The place of its actor stays.
    pub(crate) fn take(&mut self, actor: Actor) -> Option<Reached>
        ensures taken { result ≡ walk_at self.old actor }
        ensures gone { walk_at self.new actor ≡ None }
        ensures others { (b : Actor) → seat_of b ≢ seat_of actor
            → walk_at self.new b ≡ walk_at self.old b }
    {
        (**self.live.get_mut(&actor)?).take()
    }

    /// The evaluation of this actor and its place are gone.
    pub(crate) fn remove(&mut self, actor: Actor)
        ensures gone { walk_at self.new actor ≡ None }
        ensures others { (b : Actor) → seat_of b ≢ seat_of actor
            → walk_at self.new b ≡ walk_at self.old b }
    {
        drop(self.live.remove(&actor));
    }

    /// Puts an evaluation in, in place of the one of its actor. It fails only for want of memory,
    /// and then changes nothing.
    pub(crate) fn put(&mut self, actor: Actor, reached: Reached) -> Result<(), AllocError>
        ensures put { OnOk result (walk_at self.new actor ≡ Some reached) }
        ensures others { OnOk result ((b : Actor) → seat_of b ≢ seat_of actor
            → walk_at self.new b ≡ walk_at self.old b) }
        ensures stays { OnErr result ((b : Actor) → walk_at self.new b ≡ walk_at self.old b) }
    {
        if let Some(place) = self.live.get_mut(&actor) {
            **place = Some(reached);
            return Ok(());
        }
        self.add(actor, reached)
    }

    // The same, with a new place.
    fn add(&mut self, actor: Actor, reached: Reached) -> Result<(), AllocError>
        ensures put { OnOk result (walk_at self.new actor ≡ Some reached) }
        ensures others { OnOk result ((b : Actor) → seat_of b ≢ seat_of actor
            → walk_at self.new b ≡ walk_at self.old b) }
        ensures stays { OnErr result ((b : Actor) → walk_at self.new b ≡ walk_at self.old b) }
    {
        let place = Box::new(self.alloc, Some(reached))?;
        drop(self.live.insert(actor, place)?);
        Ok(())
    }
}
