// What an ask is answered.
ghost use Rattle.std.specs.Prelude.{◌≡◌};
ghost use Rattle.tenant_asks.specs.Acting.{is_interruption};
ghost use Rattle.tenant_asks.specs.declared.answers.AskAnswer as AskAnswer;
ghost use Rattle.tenant_asks.specs.Answers.{ask_answer_view, AreSameAnswers};

use repl_asks::Answer;

/// What comes of an ask.
#[derive(Drop)]
pub enum AskAnswer {
    Answer(Answer),
    /// The session was closed meanwhile, and the request is answered so.
    Interrupted,
}

/// What comes of an ask, and the same once more for whoever writes it down.
#[derive(Drop)]
pub struct AskAnswers {
    pub given: AskAnswer,
    pub noted: AskAnswer,
}

impl AskAnswers {
    pub(crate) fn interrupted() -> AskAnswers
        ensures given { result.given ≡ AskAnswer.Interrupted }
        ensures same { AreSameAnswers result }
    {
        AskAnswers {
            given: AskAnswer::Interrupted,
            noted: AskAnswer::Interrupted,
        }
    }
}

impl AskAnswer {
    /// Whether the session was closed meanwhile.
    pub fn is_interrupted(&self) -> bool
        ensures { result ≡ is_interruption (ask_answer_view self.now) }
    {
        matches!(self, AskAnswer::Interrupted)
    }
}
