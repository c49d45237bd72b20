// A replay gives its answers in their order, each to an ask of its kind alone.
use crate::given::FIRST;
use repl_asks::{
    Answer, AnswerKind, Ask, Reading, Refs, Replay, Resolution, Stop, StopReason, Verdict,
};
use repl_values::{RefName, Value};
use std::alloc::{AllocError, Global};
use std::test::Fail;

/// An answer, in short.
#[derive(Clone, Copy)]
pub(crate) enum Given {
    /// The symbol names this integer.
    Int(i64),
    /// The symbol names this ref.
    Ref(RefName),
    /// The symbol names an atom.
    Atom,
    /// The atom has this integer.
    Has(i64),
    /// Whether the try went through.
    Tried(bool),
    Done,
    /// The ref holds this integer.
    Found(i64),
    Committed,
}

fn answer(given: Given) -> Answer {
    match given {
        Given::Int(number) => Answer::Resolution(Resolution::Value(Value::Int(number))),
        Given::Ref(name) => Answer::Resolution(Resolution::Value(Value::Ref(name))),
        Given::Atom => Answer::Resolution(Resolution::Value(Value::Atom(0))),
        Given::Has(number) => Answer::Value(Value::Int(number)),
        Given::Tried(done) => Answer::Value(Value::Bool(done)),
        Given::Done => Answer::Done,
        Given::Found(number) => Answer::Reading(Reading::Found(Value::Int(number))),
        Given::Committed => Answer::Verdict(Verdict::Committed),
    }
}

pub(crate) fn answers_of(alloc: Global, given: &[Given]) -> Result<Vec<Answer>, AllocError> {
    let mut answers = Vec::new(alloc);
    for one in given {
        answers.push(answer(*one))?;
    }
    Ok(answers)
}

/// What an ask is answered, or what an evaluation comes to.
#[derive(Clone, Copy, Debug, PartialEq, Eq)]
pub(crate) enum WalkTold {
    Int(i64),
    /// A fault: a shared ref was to hold what is not plain.
    NotPlain,
    Other,
    /// An ask had no answer, which would have been of this kind.
    Stopped(AnswerKind),
}

fn read(alloc: Global, replay: &mut Replay) -> WalkTold {
    let answered = replay.ask(alloc, Ask::Read(FIRST));
    match &answered {
        Ok(Answer::Reading(Reading::Found(Value::Int(number)))) => WalkTold::Int(*number),
        Ok(_other) => WalkTold::Other,
        Err(stop) => stop_told(stop),
    }
}

fn stop_told(stop: &Stop) -> WalkTold {
    if stop.why == StopReason::NoAnswer {
        WalkTold::Stopped(stop.ask.kind())
    } else {
        WalkTold::Other
    }
}

const STOPPED: WalkTold = WalkTold::Stopped(AnswerKind::Reading);

// The answers of a replay, and what one read after the other is told. Who stopped answers no more,
// also where the next answer would fit.
const REPLAYS: &[(&[Given], &[WalkTold])] = &[
    (
        &[Given::Found(5), Given::Found(6)],
        &[WalkTold::Int(5), WalkTold::Int(6), STOPPED, STOPPED],
    ),
    (&[Given::Done, Given::Found(5)], &[STOPPED, STOPPED]),
    (&[Given::Int(1), Given::Found(5)], &[STOPPED, STOPPED]),
    (&[Given::Committed, Given::Found(5)], &[STOPPED, STOPPED]),
];

#[test]
fn replays_answer_what_fits(rt: HostRuntime) -> Result<(), Fail> {
    for (given, wanted) in REPLAYS {
        let mut replay = Replay::new(rt.alloc(), answers_of(rt.alloc(), given)?);
        for told in *wanted {
            assert_eq!(rt; read(rt.alloc(), &mut replay), *told);
        }
    }
    Ok(())
}
