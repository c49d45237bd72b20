// What goes beside a step and is no part of it.
ghost use Rattle.std.specs.Prelude.{◌≡◌, None, IfOk};
ghost use Rattle.value_data.specs.Inside.View.{items_view};
ghost use Rattle.repl_reader.specs.Grammar.{IsReading};
ghost use Rattle.repl_reader.specs.Inside.View.{fault_option};
ghost use Rattle.repl_asks.specs.Job.{EndData};
ghost use Rattle.repl_replies.specs.Inside.View.{origin_view};
ghost use Rattle.tenant_parts.specs.Spelled.{SpellsEnd, TellsEnd};

use crate::actor::ActorState;
use crate::request::{Run, Waiting, WorkInHand};
use crate::spelled::{EndReplies, SpelledEnd};
use repl_reader::{ProgramForms, ReadText, read_all, take_if_of};
use repl_replies::Origin;
use std::alloc::{AllocError, Global};

/// What a step leaves to nobody.
pub enum Left {
    Nothing,
    /// A request that waited.
    Request(Waiting),
    /// A form that ran.
    Form(Run),
    /// A request that was in hand.
    WorkInHand(WorkInHand),
    /// An actor whose request was interrupted.
    Actor(ActorState),
}

impl Drop for Left {
    fn drop(self) {
        match self {
            Left::Nothing => {},
            Left::Request(_it) => {},
            Left::Form(_it) => {},
            Left::WorkInHand(_it) => {},
            Left::Actor(_it) => {}
        }
    }
}

/// What was done for a step beforehand, and what the step leaves to nobody. So whoever makes steps
/// under a lock can read a text and make replies before it, and free memory behind it. What a step is answered
/// does not depend on it.
pub struct Aside {
    /// The text of the request that begins, if it was read.
    pub read: Option<ReadText>,
    /// The replies that tell how the form that ends did, if they were made.
    pub spelled: Option<SpelledEnd>,
    pub left: Left,
}

impl Drop for Aside {
    fn drop(self) {
        let Aside {
            read: _read,
            spelled: _spelled,
            left: _left,
        } = self;
    }
}

impl Aside {
    /// Nothing was done, and nothing is left.
    pub fn nothing() -> Aside
        ensures { result ≡ record { read = None; spelled = None; left = Left.Nothing } }
    {
        Aside {
            read: None,
            spelled: None,
            left: Left::Nothing,
        }
    }

    /// The replies that tell this request how its form ended, as far as they were made for it.
    pub fn replies_to(&mut self, origin: &Origin) -> EndReplies
        ensures { (e : EndData) → SpellsEnd self.old.spelled e
            → TellsEnd (origin_view origin.now) e result }
    {
        match self.spelled.take() {
            Some(spelled) => spelled.replies_to(origin),
            None => EndReplies::none(),
        }
    }

    /// The forms of a text: those that were read of it, or else it is read now. It fails only for
    /// want of memory.
    pub fn forms_of(&mut self, alloc: Global, text: &str) -> Result<ProgramForms, AllocError>
        ensures forms { IfOk result (λ it. IsReading text.now (items_view it.forms.items)
            (fault_option it.fault)) }
        ensures spelled { self.new.spelled ≡ self.old.spelled }
    {
        match take_if_of(&mut self.read, text) {
            Some(forms) => Ok(forms),
            None => read_all(alloc, text),
        }
    }
}
