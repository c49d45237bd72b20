// Traces in pairs, and where they differ.
use repl_asks::{Answer, Ask, Exchange, Resolution, Trace};
use repl_reader::read_all;
use std::alloc::{AllocError, Global};
use std::boxed::Box;
use std::sync::ArcStr;
use std::test::Fail;
use trace_comparison::first_difference;

// In each exchange `x` names the next of the text's forms.
fn trace_of(alloc: Global, text: &str) -> Result<Trace, AllocError> {
    let mut trace = Vec::new(alloc);
    for value in read_all(alloc, text)?.forms {
        trace.push(Exchange {
            ask: Ask::Resolve {
                namespace: ArcStr::from_str(alloc, "user")?,
                symbol: ArcStr::from_str(alloc, "x")?,
            },
            answer: Answer::Resolution(Resolution::Value(value)),
        })?;
    }
    Ok(trace)
}

// Two traces, and the place at which they differ first.
const TRACES: &[(&str, &str, Option<usize>)] = &[
    ("", "", None),
    ("1 nil \"é\" :k s/n", "1 nil \"é\" :k s/n", None),
    ("", "1", Some(0)),
    ("1 2", "2 2", Some(0)),
    ("1 2 3", "1 3 3", Some(1)),
    ("1 2 3", "1 2 2", Some(2)),
    ("1 2", "1 2 3", Some(2)),
    // What the language takes for equal may print otherwise.
    ("[(1)]", "[[1]]", Some(0)),
    ("{:a 1 :b 2}", "{:b 2 :a 1}", Some(0)),
    ("{:a 1 :b (2)}", "{:a 1 :b (2)}", None),
];

// The same exchanges as a server keeps them.
fn kept(alloc: Global, trace: Trace) -> Result<Vec<Box<Exchange>>, AllocError> {
    let mut kept = Vec::new(alloc);
    for exchange in trace {
        kept.push(Box::new(alloc, exchange)?)?;
    }
    Ok(kept)
}

#[test]
fn traces_differ_first_at_a_place(rt: HostRuntime) -> Result<(), Fail> {
    let alloc = rt.alloc();
    for (text, other, expected) in TRACES {
        for (told, recorded) in [(text, other), (other, text)] {
            let recorded = kept(alloc, trace_of(alloc, recorded)?)?;
            let told = trace_of(alloc, told)?;
            assert_eq!(rt; first_difference(&told, &recorded), *expected, "{text}");
        }
    }
    Ok(())
}
