// The replies that wait.
ghost use Rattle.std.specs.Prelude.{◌≡◌, ◌≤◌, ◌↔◌, [], ◌∷◌, ◌++◌, length, IsTrue, OnOk, OnErr};
ghost use Rattle.std.specs.Prelude.{MatchOption, option_map, slice_get};
ghost use Rattle.tenant_parts.specs.Replies.{made_bytes, waiting_bytes};

use crate::batch::Batch;
use server_rules::MOST_REPLIES;
use std::alloc::{AllocError, Global};
use std::collections::VecDeque;

/// The replies that wait, oldest first, each as its bytes.
pub struct Outbox {
    replies: VecDeque<Vec<u8>>,
}

impl Drop for Outbox {
    fn drop(self) {
        let Outbox { replies: _replies } = self;
    }
}

impl Outbox {
    /// No reply waits.
    pub fn new(alloc: Global) -> Outbox
        ensures { waiting_bytes result ≡ [] }
    {
        Outbox {
            replies: VecDeque::new(alloc),
        }
    }

    /// Whether so many wait that whatever may add more is held back.
    pub fn is_held(&self) -> bool
        ensures { IsTrue result ↔ (MOST_REPLIES ≤ length (waiting_bytes self.now)) }
    {
        self.replies.len() >= MOST_REPLIES
    }

    /// The oldest reply that waits.
    pub fn oldest(&self) -> Option<&[u8]>
        ensures { option_map (λ reply. reply.now) result ≡ slice_get (waiting_bytes self.now) 0 }
    {
        Some(self.replies.front()?.as_slice())
    }

    /// Takes the oldest reply out. It takes no memory.
    pub fn take(&mut self) -> Option<Vec<u8>>
        ensures { MatchOption result ((waiting_bytes self.old ≡ []) × (waiting_bytes self.new ≡ []))
            (λ bytes. waiting_bytes self.old ≡ bytes.items ∷ waiting_bytes self.new) }
    {
        self.replies.pop_front()
    }

    /// Lets the replies of a batch wait, in order. It fails only for want of memory, and then adds
    /// none.
    pub fn post(&mut self, mut batch: Batch) -> Result<(), AllocError>
        ensures posted { OnOk result (waiting_bytes self.new
            ≡ waiting_bytes self.old ++ made_bytes batch) }
        ensures stays { OnErr result (waiting_bytes self.new ≡ waiting_bytes self.old) }
    {
        if batch.replies.is_empty() {
            return Ok(());
        }
        self.replies.append(&mut batch.replies)
    }
}
