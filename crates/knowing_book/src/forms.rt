// A form between its steps, with what is known of it for good.
ghost use Rattle.std.specs.Prelude.{◌≡◌, IfOk};
ghost use Rattle.server_rules.specs.Request.{Run};
ghost use Rattle.knowing_book.specs.Knowledge.{Knows};
ghost use Rattle.knowing_book.specs.Reached.{IsReached};
ghost use Rattle.knowing_book.specs.View.{begun_run, run_of, told_run};

use crate::known::{Known, Naming};
use journal_book::JournalEntry;
use repl_asks::{Answer, Ask, Job};
use repl_walker::{Ending, Progress, Walk, start};
use server_rules::Actor;
use std::alloc::{AllocError, Global};
use std::boxed::Box;
use std::marker::Model;
use tenant_parts::{Addressee, SpelledEnd};

/// Whose form it is, up to which entry its actor's last one stands, and a beginning of the journal
/// that tells the form up to there, if one is known.
#[derive(Drop)]
pub(crate) struct Fact<N: Naming> {
    pub(crate) tenant: u64,
    pub(crate) actor: Actor,
    pub(crate) last: u64,
    pub(crate) known: Option<Known<JournalEntry, N>>,
    // to whom and how its end is told
    pub(crate) addressee: Option<Addressee>,
}

impl<N: Naming> Fact<N> {
    // The same as a fact of this tenant: of another nothing is known.
    pub(crate) fn of(self, tenant: u64) -> Fact<N>
        ensures tenant { result.tenant ≡ tenant }
        ensures actor { result.actor ≡ self.actor }
        ensures known { (form : Run) → Knows self.known self.tenant self.actor self.last form
            → Knows result.known tenant self.actor result.last form }
    {
        let Fact {
            tenant: whose,
            actor,
            last,
            known,
            addressee,
        } = self;
        let known = if whose == tenant { known } else { None };
        Fact {
            tenant,
            actor,
            last,
            known,
            addressee,
        }
    }
}

/// A form that began. Contracts see its actor and its job.
#[derive(Drop)]
pub struct Begun<N: Naming> {
    pub(crate) fact: Fact<N>,
    pub(crate) job: Job,
}

impl<N: Naming> Model for Begun<N> {
    ghost use Rattle.std.specs.Coded.{codes};
    ghost use Rattle.repl_asks.specs.contracts.job.Job as jobs;
    ghost use Rattle.server_rules.specs.contracts.actor.Actor as actors;
    ghost use Rattle.knowing_book.specs.Knowledge.{Knows};
    ghost use Rattle.knowing_book.specs.View.{BegunData, begun_run};

    ghost Value = { BegunData };

    ghost coded = { Prim.hlevel (codes, jobs.the_row.coded, actors.the_row.coded) };

    ghost view = { λ b. record { actor = b.fact.actor; job = b.job } };

    ghost invariant = { λ b. Knows b.fact.known b.fact.tenant b.fact.actor b.fact.last
        (begun_run b.job) };
}

/// A form that asks. Contracts see its actor, its job, its trace and its ask.
#[derive(Drop)]
pub struct Question<N: Naming> {
    pub(crate) fact: Fact<N>,
    pub(crate) walk: Walk,
    pub(crate) ask: Box<Ask>,
}

impl<N: Naming> Model for Question<N> {
    ghost use Rattle.std.specs.Prelude.{◌≡◌};
    ghost use Rattle.std.specs.Coded.{codes};
    ghost use Rattle.repl_asks.specs.Inside.View.{ask_view};
    ghost use Rattle.repl_asks.specs.contracts.ask.Ask as asks;
    ghost use Rattle.repl_asks.specs.contracts.exchange.Exchange as exchanges;
    ghost use Rattle.repl_asks.specs.contracts.job.Job as jobs;
    ghost use Rattle.server_rules.specs.contracts.actor.Actor as actors;
    ghost use Rattle.knowing_book.specs.Knowledge.{Knows};
    ghost use Rattle.knowing_book.specs.View.{QuestionData, walk_run};

    ghost Value = { QuestionData };

    ghost coded = { Prim.hlevel (
      codes,
      asks.the_row.coded,
      exchanges.the_row.coded,
      jobs.the_row.coded,
      actors.the_row.coded,
    ) };

    ghost view = { λ q. record {
      actor = q.fact.actor;
      job = q.walk.job;
      trace = q.walk.trace.items;
      ask = q.ask.value;
    } };

    ghost invariant = { λ q. (ask_view q.ask.value ≡ ask_view q.walk.ask)
        × Knows q.fact.known q.fact.tenant q.fact.actor q.fact.last (walk_run q.walk) };
}

/// A form with the answer to its ask. Contracts see the form as it asked, and the answer.
#[derive(Drop)]
pub struct Answered<N: Naming> {
    pub(crate) fact: Fact<N>,
    pub(crate) walk: Walk,
    pub(crate) answer: Answer,
}

impl<N: Naming> Model for Answered<N> {
    ghost use Rattle.std.specs.Coded.{codes};
    ghost use Rattle.repl_asks.specs.contracts.answer.Answer as answers;
    ghost use Rattle.repl_asks.specs.contracts.ask.Ask as asks;
    ghost use Rattle.repl_asks.specs.contracts.exchange.Exchange as exchanges;
    ghost use Rattle.repl_asks.specs.contracts.job.Job as jobs;
    ghost use Rattle.server_rules.specs.contracts.actor.Actor as actors;
    ghost use Rattle.knowing_book.specs.Knowledge.{Knows};
    ghost use Rattle.knowing_book.specs.View.{AnsweredData, answered_run};

    ghost Value = { AnsweredData };

    ghost coded = { Prim.hlevel (
      codes,
      answers.the_row.coded,
      asks.the_row.coded,
      exchanges.the_row.coded,
      jobs.the_row.coded,
      actors.the_row.coded,
    ) };

    ghost view = { λ r. record {
      question = record {
        actor = r.fact.actor;
        job = r.walk.job;
        trace = r.walk.trace.items;
        ask = r.walk.ask;
      };
      answer = r.answer;
    } };

    ghost invariant = { λ r. Knows r.fact.known r.fact.tenant r.fact.actor r.fact.last
        (answered_run r.walk r.answer) };
}

/// A form that ended. Contracts see its actor and its ending.
#[derive(Drop)]
pub struct Finish<N: Naming> {
    pub(crate) fact: Fact<N>,
    pub(crate) ending: Box<Ending>,
    // the replies that tell how it ended, if they were made
    pub(crate) spelled: Option<SpelledEnd>,
}

impl<N: Naming> Model for Finish<N> {
    ghost use Rattle.std.specs.Coded.{codes};
    ghost use Rattle.repl_walker.specs.Ends.{ending_view};
    ghost use Rattle.repl_walker.specs.contracts.ending.Ending as endings;
    ghost use Rattle.server_rules.specs.contracts.actor.Actor as actors;
    ghost use Rattle.tenant_parts.specs.Spelled.{SpellsEnd};
    ghost use Rattle.journal_book.specs.Forms.{form_of};
    ghost use Rattle.knowing_book.specs.Knowledge.{Knows};
    ghost use Rattle.knowing_book.specs.View.{FinishData};

    ghost Value = { FinishData };

    ghost coded = { Prim.hlevel (codes, endings.the_row.coded, actors.the_row.coded) };

    ghost view = { λ f. record { actor = f.fact.actor; ending = f.ending.value } };

    ghost invariant = { λ f. Knows f.fact.known f.fact.tenant f.fact.actor f.fact.last
        (form_of (ending_view f.ending.value))
        × SpellsEnd f.spelled (ending_view f.ending.value).end };
}

/// How far a form came: to its next ask, or to its end.
#[derive(Drop)]
pub enum Stage<N: Naming> {
    Asks(Question<N>),
    Ends(Finish<N>),
}

impl<N: Naming> Begun<N> {
    /// Whose form it is.
    pub fn actor(&self) -> Actor
        ensures { result ≡ self.now.actor }
    {
        self.fact.actor
    }

    /// Evaluates up to the first ask or the end. It fails only for want of memory.
    pub fn evaluate(self, alloc: Global) -> Result<Stage<N>, AllocError>
        ensures { IfOk result (IsReached self.actor (begun_run self.job)) }
    {
        let Begun { fact, job } = self;
        let progress = start(alloc, &job)?;
        reach(alloc, fact, progress)
    }
}

impl<N: Naming> Question<N> {
    /// Whose form it is.
    pub fn actor(&self) -> Actor
        ensures { result ≡ self.now.actor }
    {
        self.fact.actor
    }

    /// What it asks.
    pub fn ask(&self) -> &Ask
        ensures { result.now ≡ self.now.ask }
    {
        &self.ask
    }
}

impl<N: Naming> Answered<N> {
    /// Goes on with the answer, up to the next ask or the end. It fails only for want of memory.
    pub fn resume(self, alloc: Global) -> Result<Stage<N>, AllocError>
        ensures { IfOk result (IsReached self.question.actor (told_run self)) }
    {
        let Answered { fact, walk, answer } = self;
        let progress = walk.resume(alloc, answer)?;
        reach(alloc, fact, progress)
    }
}

impl<N: Naming> Finish<N> {
    /// Whose form it is.
    pub fn actor(&self) -> Actor
        ensures { result ≡ self.now.actor }
    {
        self.fact.actor
    }

    /// Makes the replies that tell how it ended, if they were not made. It fails only for want of
    /// memory.
    pub fn spell(self, alloc: Global) -> Result<Finish<N>, AllocError>
        ensures { IfOk result (λ it. it ≡ self) }
    {
        let Finish {
            fact,
            ending,
            spelled,
        } = self;
        let spelled = match (spelled, &fact.addressee) {
            (Some(spelled), _) => Some(spelled),
            (None, Some(to)) => Some(SpelledEnd::new(alloc, to, ending.end())?),
            (None, None) => None,
        };
        Ok(Finish {
            fact,
            ending,
            spelled,
        })
    }

    /// The same of which nothing is known, so that its ending is compared.
    pub fn forget(self) -> Finish<N>
        ensures { result ≡ self }
    {
        let Finish {
            mut fact,
            ending,
            spelled,
        } = self;
        fact.known = None;
        Finish {
            fact,
            ending,
            spelled,
        }
    }
}

// How far a form of which this is known came. What is handed in stands in a box.
fn reach<N: Naming>(
    alloc: Global,
    fact: Fact<N>,
    progress: Progress,
) -> Result<Stage<N>, AllocError>
    requires { Knows fact.known fact.tenant fact.actor fact.last (run_of progress) }
    ensures { IfOk result (IsReached fact.actor (run_of progress)) }
{
    match progress {
        Progress::Asks(walk) => {
            walk.comes_from_its_job();
            let ask = Box::new(alloc, walk.ask().copy()?)?;
            Ok(Stage::Asks(Question { fact, walk, ask }))
        }
        Progress::Ends(ending) => {
            ending.comes_from_its_job();
            Ok(Stage::Ends(Finish {
                fact,
                ending: Box::new(alloc, ending)?,
                spelled: None,
            }))
        }
    }
}
