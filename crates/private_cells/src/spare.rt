// Places in which actions can wait. All of them are made before they are used, so that sending
// takes no memory.
ghost use Rattle.std.specs.Prelude.{◌≡◌, ℕ, ◌+◌, ◌<◌, ◌≤◌, ◌^◌, [], ◌∷◌, drop, length, OnOk};

use crate::action::{Action, Sent};
use core_functions::StoreFunction;
use repl_asks::{NamedFunction, Task};
use repl_replies::Origin;
use std::alloc::{AllocError, Global};
use std::collections::LinkedList;
use std::mem;
use std::sync::Arc;

// So many actions can be sent to the agents of a tenant, and no more.
const MOST_SENT: u128 = 1 << 63;

// Nodes of a list, one for each action. Each holds a blank action until it is taken.
#[derive(Drop)]
pub(crate) struct Spare {
    pub(crate) alloc: Global,
    pub(crate) nodes: LinkedList<Sent>,
}

impl Spare {
    pub(crate) fn new(alloc: Global) -> Spare
        ensures { result.nodes ≡ [] }
    {
        Spare {
            alloc,
            nodes: LinkedList::new(alloc),
        }
    }

    // Makes nodes until there are so many. It fails for want of memory, or where this many sent
    // before and the nodes would be 2^63 together.
    pub(crate) fn reserve(&mut self, sends: usize, sent: u128) -> Result<(), AllocError>
        requires { sent + length self.old.nodes < 2 ^ 63 }
        ensures room { OnOk result (sends ≤ length self.new.nodes) }
        ensures grows { length self.old.nodes ≤ length self.new.nodes }
        ensures fits { sent + length self.new.nodes < 2 ^ 63 }
    {
        if self.nodes.len() >= sends {
            return Ok(());
        }
        let task = blank_task(self.alloc)?;
        let origin = Arc::new(self.alloc, Origin::none())?;
        while self.nodes.len() < sends {
            if sent + self.nodes.len() as u128 + 1 >= MOST_SENT {
                return Err(AllocError);
            }
            self.nodes
                .push_back(blank(Arc::try_clone(&task)?, Arc::try_clone(&origin)?))?;
        }
        Ok(())
    }

    // A list of one node, which holds this.
    pub(crate) fn filled(&mut self, sent: Sent) -> LinkedList<Sent>
        requires { 0 < length self.old.nodes }
        ensures filled { result ≡ sent ∷ [] }
        ensures rest { self.new.nodes ≡ drop 1 self.old.nodes }
    {
        let Ok(rest) = self.nodes.split_off(1) else {
            unreachable!();
        };
        let mut node = mem::replace(&mut self.nodes, rest);
        let Some(place) = node.front_mut() else {
            unreachable!();
        };
        fill(place, sent);
        node
    }
}

fn fill(place: &mut Sent, sent: Sent)
    ensures { place.new ≡ sent }
{
    *place = sent;
}

// What stands in a node that waits to be filled.
fn blank(task: Arc<Task>, origin: Arc<Origin>) -> Sent {
    Sent {
        number: 0,
        action: Action {
            task,
            origin,
            session: None,
        },
    }
}

// Which one it is, nobody sees.
fn blank_task(alloc: Global) -> Result<Arc<Task>, AllocError> {
    let task = Task {
        function: NamedFunction::Store(StoreFunction::Deref),
        arguments: Vec::new(alloc),
    };
    Ok(Arc::new(alloc, task)?)
}
