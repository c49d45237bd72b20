// Texts with the kind and the place of the fault that ends their reading.
use FaultKind::{
    BadChar, BadDispatch, BadEscape, BadNumber, BadToken, Eof, OddMap, SameKey, TooDeep, Unmatched,
};
use repl_reader::{FaultKind, read_all};
use std::test::Fail;

const PLACES: &[(&str, FaultKind, usize)] = &[
    ("1 (", Eof, 3),
    ("\"é\\", Eof, 4),
    ("'#_", Eof, 3),
    ("#", Eof, 1),
    ("é )", Unmatched, 3),
    ("(1]", Unmatched, 2),
    ("(1 #_)", Unmatched, 5),
    ("{'}", Unmatched, 2),
    ("1 -01", BadNumber, 2),
    ("→ 1é", BadNumber, 4),
    ("9223372036854775808", BadNumber, 0),
    ("é ::a", BadToken, 3),
    (":", BadToken, 0),
    ("a/b/c", BadToken, 0),
    ("#_a/", BadToken, 2),
    ("\"a\\é\"", BadEscape, 2),
    ("1 \"\\u0041\"", BadEscape, 3),
    ("#→", BadDispatch, 0),
    ("[#{1}]", BadDispatch, 1),
    ("a^b", BadChar, 1),
    ("é~", BadChar, 2),
    ("\\a", BadChar, 0),
    ("(`a)", BadChar, 1),
    ("{1}", OddMap, 2),
    ("{1 2 1}", OddMap, 6),
    ("{1 2 1 3}", SameKey, 8),
    ("{[1] 1 (1) 2}", SameKey, 12),
    ("é {\"→\" 1 \"→\" 2 1 2 1 2}", SameKey, 27),
    (
        "[[[[[[[[[[[[[[[[[[[[[[[[[[[[[[[[[[[[[[[[[[[[[[[[[[[[[[[[[[[[[[[[",
        Eof,
        64,
    ),
    (
        "[[[[[[[[[[[[[[[[[[[[[[[[[[[[[[[[[[[[[[[[[[[[[[[[[[[[[[[[[[[[[[[[[",
        TooDeep,
        64,
    ),
    (
        "'@'@'@'@'@'@'@'@'@'@'@'@'@'@'@'@'@'@'@'@'@'@'@'@'@'@'@'@'@'@'@'@'@",
        TooDeep,
        64,
    ),
];

#[test]
fn faults_have_their_places(rt: HostRuntime) -> Result<(), Fail> {
    for (text, kind, at) in PLACES {
        let fault = read_all(rt.alloc(), text)?.fault;
        let is_there = fault.is_some_and(|fault| fault.kind == *kind && fault.at == *at);
        assert!(rt; is_there, "{text}");
    }
    Ok(())
}
