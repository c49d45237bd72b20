// Evaluations over answers that are known beforehand: what they come to, or where they stop.
use crate::given::{FIRST, OURS};
use crate::replays::Given::{Atom, Committed, Done, Found, Has, Int, Ref, Tried};
use crate::replays::WalkTold::{NotPlain, Other, Stopped};
use crate::replays::{Given, WalkTold, answers_of};
use repl_asks::{AnswerKind, End, Job, Replay, Work};
use repl_reader::read_all;
use repl_values::{Fault, Value};
use repl_walker::{Ending, WalkError, walk};
use std::alloc::{AllocError, Global};
use std::sync::ArcStr;
use std::test::Fail;

// The evaluation of the code's last form in `user`, with one attempt for each transaction.
fn job(alloc: Global, code: &str) -> Result<Job, AllocError> {
    let namespace = ArcStr::from_str(alloc, "user")?;
    let form = read_all(alloc, code)?.forms.pop();
    Ok(Job {
        work: Work::Form(form.unwrap_or(Value::Nil)),
        namespace,
        retries: 1,
    })
}

fn ending_told(ending: &Ending) -> WalkTold {
    match ending.end().end() {
        End::Value(Value::Int(number)) => WalkTold::Int(*number),
        End::Value(_other) => Other,
        End::Fault(fault) => fault_told(fault),
    }
}

fn fault_told(fault: &Fault) -> WalkTold {
    if fault.text.as_str() == "Only plain data goes into a shared ref" {
        NotPlain
    } else {
        Other
    }
}

fn copied_ending_told(alloc: Global, ending: &Ending) -> Result<WalkTold, AllocError> {
    let copied = ending.copy(alloc)?;
    Ok(ending_told(&copied))
}

// What a walk comes to, told of a copy of its ending.
fn walked(alloc: Global, code: &str, given: &[Given]) -> Result<WalkTold, AllocError> {
    let job = job(alloc, code)?;
    let mut replay = Replay::new(alloc, answers_of(alloc, given)?);
    match walk(alloc, &job, &mut replay) {
        Ok(ending) => copied_ending_told(alloc, &ending),
        Err(WalkError::Stopped(ask)) => Ok(Stopped(ask.kind())),
        Err(WalkError::NoMemory) => Err(AllocError),
    }
}

// A form, the answers that it is given, and what is told. What `s` names is shared by all tenants,
// so that it may hold plain data alone.
const WALKS: &[(&str, &[Given], WalkTold)] = &[
    ("7", &[], WalkTold::Int(7)),
    ("(do x y)", &[Int(1), Int(2)], WalkTold::Int(2)),
    ("(f x)", &[Int(1)], Other),
    ("(def x 1)", &[Done], Other),
    ("x", &[], Stopped(AnswerKind::Resolution)),
    ("[x y]", &[Int(1)], Stopped(AnswerKind::Resolution)),
    ("x", &[Done], Stopped(AnswerKind::Resolution)),
    ("(def x 1)", &[Int(5)], Stopped(AnswerKind::Completion)),
    ("(ns a)", &[Int(5)], Stopped(AnswerKind::Completion)),
    ("(dosync 1)", &[Done, Done], Stopped(AnswerKind::Verdict)),
    (
        "(dosync (clojure.core/ref-set s 5))",
        &[Done, Ref(OURS), Committed],
        WalkTold::Int(5),
    ),
    (
        "(dosync (clojure.core/alter s clojure.core/list r))",
        &[Done, Ref(OURS), Ref(FIRST), Found(1)],
        NotPlain,
    ),
    (
        "(dosync (clojure.core/commute s clojure.core/list r))",
        &[Done, Ref(OURS), Ref(FIRST), Found(1)],
        NotPlain,
    ),
    (
        "(clojure.core/swap! t clojure.core/+ 2)",
        &[Atom, Has(1), Tried(true)],
        WalkTold::Int(3),
    ),
    (
        "(clojure.core/swap! t clojure.core/+ 2)",
        &[Atom, Has(1), Tried(false), Has(5), Tried(true)],
        WalkTold::Int(7),
    ),
    (
        "(clojure.core/swap! t clojure.core/+ 2)",
        &[Atom, Has(1), Tried(false)],
        Stopped(AnswerKind::Value),
    ),
    ("(clojure.core/swap! x clojure.core/+ 2)", &[Int(1)], Other),
    ("(clojure.core/deref t)", &[Atom, Has(6)], WalkTold::Int(6)),
];

// Where a walk is refused memory it is made once more, and comes to the same.
#[test]
fn walks_end_or_stop(rt: HostRuntime) -> Result<(), Fail> {
    for (code, given, wanted) in WALKS {
        let told = match walked(rt.alloc(), code, given) {
            Ok(told) => told,
            Err(AllocError) => walked(rt.alloc(), code, given)?,
        };
        assert_eq!(rt; told, *wanted);
    }
    Ok(())
}

// A second evaluation goes on with the answers that the first left.
#[test]
fn answers_are_left_for_the_next(rt: HostRuntime) -> Result<(), Fail> {
    let a = rt.alloc();
    let mut replay = Replay::new(a, answers_of(a, &[Int(1), Int(2)])?);
    let Ok(first) = walk(a, &job(a, "x")?, &mut replay) else {
        panic!(rt; "the first stopped");
    };
    let Ok(second) = walk(a, &job(a, "y")?, &mut replay) else {
        panic!(rt; "the second stopped");
    };
    assert_eq!(rt; ending_told(&first), WalkTold::Int(1));
    assert_eq!(rt; ending_told(&second), WalkTold::Int(2));
    Ok(())
}
