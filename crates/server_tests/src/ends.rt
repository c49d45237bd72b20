// How a stream ends where its steps are used up, and the line where memory is refused.
use crate::runners::{SUM, SUM_REPLIES, server_of_steps};
use machine_runs::pipe_command;
use nrepl_pipe::out_of_memory;
use std::test::Fail;

// A piece costs a step, and so does each turn. The request takes three turns, of which the last
// makes its replies, and then comes one in which nothing is to be done.
const ENDS: &[(u32, &[u8], u8, &str)] = &[
    (3, b"", 1, "nrepl: step limit reached\n"),
    (4, SUM_REPLIES, 1, "nrepl: step limit reached\n"),
    (5, SUM_REPLIES, 0, ""),
];

#[test]
fn steps_end_the_stream(rt: HostRuntime) -> Result<(), Fail> {
    let alloc = rt.alloc();
    for &(steps, replies, status, line) in ENDS {
        let config = server_of_steps(steps);
        let mut input = SUM;
        let mut output = Vec::new(alloc);
        let mut errors = Vec::new(alloc);
        let told = pipe_command(alloc, config, &mut input, &mut output, &mut errors);
        assert_eq!(rt; output.as_slice(), replies, "{steps}");
        assert_eq!(rt; errors.as_slice(), line.as_bytes(), "{steps}");
        assert_eq!(rt; told, status, "{steps}");
    }
    Ok(())
}

#[test]
fn want_of_memory_is_told(rt: HostRuntime) -> Result<(), Fail> {
    let mut errors = Vec::new(rt.alloc());
    assert_eq!(rt; out_of_memory(&mut errors), 1);
    assert_eq!(rt; errors.as_slice(), b"nrepl: out of memory\n".as_slice());
    Ok(())
}
