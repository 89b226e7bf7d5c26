// Reads a stream of commands from standard input, carries it out on a fresh card, and writes a line for each word (01
// "Replay"). It reads one byte more than the longest stream, which is enough to see that one is too long. All that it
// decides is `replay_text::replay`.
//
// Where reading fails, nothing is written; where writing fails, part of the text may be. Either is said on standard error,
// and the program ends with status 1.
#![tactic(auto)]

ghost use Rattle.replay_text.specs.Replay.{replay_of};

use std::io;
use std::process::ExitCode;
use streams::Program;

struct Replay;

impl Program<98308> for Replay {
    const UNREAD: &'static str = "replay: standard input cannot be read";

    const UNWRITTEN: &'static str = "replay: standard output cannot be written";

    ghost text_of = { replay_of };

    fn text(input: &[u8], out: &mut [u8; 98308]) -> usize {
        replay_text::replay(input, out)
    }
}

fn main(rt: HostRuntime) -> ExitCode {
    streams::run::<Replay, 32769, 98308, _, _>(&rt, &mut rt.stdin(), &mut io::writer(&rt))
}
