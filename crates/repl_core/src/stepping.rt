// The step of the server.
ghost use Rattle.std.specs.Prelude.{◌≡◌, ◌<◌, true, IfOk, IfErr};
ghost use Rattle.server_rules.specs.Ground.{Ground};
ghost use Rattle.server_rules.specs.Plan.{reply_given};
ghost use Rattle.server_rules.specs.Machine.World as worlds;
ghost use Rattle.server_rules.specs.Machine.World.{World};
ghost use Rattle.ref_table.specs.Standing.{counter_of};
ghost use Rattle.server_rules.specs.Grounds.{IsRight};
ghost use Rattle.tenant_world.specs.Answers.{start_answer_view, end_answer_view};
ghost use Rattle.tenant_asks.specs.Answers.{ask_answer_view, AreSameAnswers};
ghost use Rattle.tenant_world.specs.Answers.{AreSameStarts, AreSameReplies};
ghost use Rattle.repl_core.specs.Steps.{step_view, step_answer_view, AreSame};

use crate::machine::Machine;
use crate::step::{Refused, Step, StepAnswer, StepAnswers};
use server_rules::Refusal;
use tenant_parts::Aside;
use tenant_world::{AskAnswer, AskAnswers, EndAnswer, Replies, StartAnswer, StartAnswers};

impl Machine {
    ghost use Rattle.repl_core.specs.Standing.{MachineStands};
    ghost use Rattle.repl_core.specs.Points.{IsReadOfItsPoint};
    ghost use Rattle.repl_core.specs.Steps.{is_accepted_step};
    ghost use Rattle.repl_core.specs.Promises.{DoesStep, DeclinesStep, DoesKnown, DeclinesKnown};
    ghost use Rattle.repl_core.specs.Promises.{DeclinesStepBy, CountedLacksMemoryBy};
    ghost use Rattle.repl_core.specs.Kept.{EndsAsKept};

    /// Makes a step. A step that is refused changes nothing, and is given back. In an attempt the
    /// answer to a read is what the ref held at the attempt's read point, or to read again.
    pub fn step(&mut self, step: Step) -> Result<StepAnswer, Refused>
        ensures done { DoesStep (step_view step) self.old self.new result step_answer_view }
        ensures refused { DeclinesStepBy (step_view step) self.old self.new result (λ it. it.why) }
        ensures no_memory { CountedLacksMemoryBy (step_view step) self.old
            (counter_of self.old.refs < u128.MAX) result (λ it. it.why) }
        ensures reads { (g : Ground) (w : World) → IsRight g → MachineStands g self.old w
            → IfOk result (λ x. IsReadOfItsPoint w (step_view step) (step_answer_view x)) }
        ensures handed_back { IfErr result (λ it. it.step ≡ step) }
    {
        Ok(self.step_copied(step)?.given)
    }

    /// The same, with its answer twice.
    pub fn step_copied(&mut self, step: Step) -> Result<StepAnswers, Refused>
        ensures done { DoesStep (step_view step) self.old self.new result
            (λ it. step_answer_view it.given) }
        ensures refused { DeclinesStepBy (step_view step) self.old self.new result (λ it. it.why) }
        ensures no_memory { CountedLacksMemoryBy (step_view step) self.old
            (counter_of self.old.refs < u128.MAX) result (λ it. it.why) }
        ensures same { IfOk result AreSame }
        ensures handed_back { IfErr result (λ it. it.step ≡ step) }
    {
        match self.make(&step) {
            Ok(answers) => Ok(answers),
            Err(why) => Err(Refused { why, step }),
        }
    }

    /// Makes a step that is lent, and answers twice. A step that is refused changes nothing.
    pub fn make(&mut self, step: &Step) -> Result<StepAnswers, Refusal>
        ensures done { DoesStep (step_view step.now) self.old self.new result
            (λ it. step_answer_view it.given) }
        ensures refused { DeclinesStep (step_view step.now) self.old self.new result }
        ensures no_memory { (g : Ground) (w : World) → IsRight g → MachineStands g self.old w
            → counter_of self.old.refs < u128.MAX
            → IfErr result (λ why. why ≡ Refusal.NoMemory
            → is_accepted_step (worlds.step g w (step_view step.now)) ≡ true) }
        ensures same { IfOk result AreSame }
    {
        let mut aside = Aside::nothing();
        match step {
            Step::Open(number) => {
                self.open(*number)?;
                Ok(StepAnswers {
                    given: StepAnswer::Opened,
                    noted: StepAnswer::Opened,
                })
            }
            Step::Hear(number, piece) => {
                let count = self.hear(*number, piece)?;
                Ok(StepAnswers {
                    given: StepAnswer::Heard(count),
                    noted: StepAnswer::Heard(count),
                })
            }
            Step::Start(number, actor) => Ok(of_started(self.start(*number, *actor, &mut aside)?)),
            Step::Asked(number, actor, ask) => {
                Ok(of_asked(self.answer_ask(*number, *actor, ask, &mut aside)?))
            }
            Step::Ended(number, actor, ending) => {
                Ok(of_ended(self.end_form(*number, *actor, ending, &mut aside)?))
            }
            Step::Drain(number) => Ok(of_drained(self.drain_copied(*number)?)),
            Step::Bye(number) => {
                self.close_whole(*number)?;
                Ok(StepAnswers {
                    given: StepAnswer::Gone,
                    noted: StepAnswer::Gone,
                })
            }
        }
    }

    /// Makes a step that is lent. Where it ends a form, the ending is known to be the form's: its
    /// job and its trace are those that are kept, and nothing of it is compared.
    pub fn make_known(&mut self, step: &Step) -> Result<StepAnswers, Refusal>
        ensures done { DoesKnown (step_view step.now) self.old self.new result
            (λ it. step_answer_view it.given) }
        ensures refused { DeclinesKnown (step_view step.now) self.old self.new result }
        ensures no_memory { (g : Ground) (w : World) → IsRight g → MachineStands g self.old w
            → EndsAsKept w (step_view step.now) → counter_of self.old.refs < u128.MAX
            → IfErr result (λ why. why ≡ Refusal.NoMemory
            → is_accepted_step (worlds.step g w (step_view step.now)) ≡ true) }
        ensures same { IfOk result AreSame }
    {
        match step {
            Step::Ended(number, actor, ending) => {
                Ok(of_ended(self.end_known(*number, *actor, ending, &mut Aside::nothing())?))
            }
            _ => self.make(step),
        }
    }
}

fn of_started(started: StartAnswers) -> StepAnswers
    ensures given { step_answer_view result.given ≡ start_answer_view started.given }
    ensures same { AreSameStarts started → AreSame result }
{
    StepAnswers {
        given: of_start(started.given),
        noted: of_start(started.noted),
    }
}

/// What comes of a start, as an answer.
pub fn of_start(started: StartAnswer) -> StepAnswer
    ensures { step_answer_view result ≡ start_answer_view started }
{
    match started {
        StartAnswer::Begun(job) => StepAnswer::Begun(job),
        StartAnswer::Answered => StepAnswer::Answered,
        StartAnswer::Interrupted => StepAnswer::Interrupted,
    }
}

fn of_asked(asked: AskAnswers) -> StepAnswers
    ensures given { step_answer_view result.given ≡ ask_answer_view asked.given }
    ensures same { AreSameAnswers asked → AreSame result }
{
    StepAnswers {
        given: of_ask(asked.given),
        noted: of_ask(asked.noted),
    }
}

/// What comes of an ask, as an answer.
pub fn of_ask(asked: AskAnswer) -> StepAnswer
    ensures { step_answer_view result ≡ ask_answer_view asked }
{
    match asked {
        AskAnswer::Answer(answer) => StepAnswer::Answer(answer),
        AskAnswer::Interrupted => StepAnswer::Interrupted,
    }
}

fn of_ended(ended: EndAnswer) -> StepAnswers
    ensures given { step_answer_view result.given ≡ end_answer_view ended }
    ensures same { AreSame result }
{
    StepAnswers {
        given: of_end(ended),
        noted: of_end(ended),
    }
}

/// What comes of an end, as an answer.
pub fn of_end(ended: EndAnswer) -> StepAnswer
    ensures { step_answer_view result ≡ end_answer_view ended }
{
    match ended {
        EndAnswer::Finished => StepAnswer::Finished,
        EndAnswer::Interrupted => StepAnswer::Interrupted,
    }
}

fn of_drained(replies: Replies) -> StepAnswers
    ensures given { step_answer_view result.given ≡ reply_given replies.given.items }
    ensures same { AreSameReplies replies → AreSame result }
{
    StepAnswers {
        given: StepAnswer::Bytes(replies.given),
        noted: StepAnswer::Bytes(replies.noted),
    }
}
