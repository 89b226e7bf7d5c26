// Reads CREATE's data from standard input and writes a line for each of its objects, where they stop, and how CREATE reads
// them (01 "CREATE", data: why data is refused with 6A80). It reads one byte more than the longest data, which is enough
// to see that it is too long. All that it decides is `objects_text::list`.
//
// Where reading fails, nothing is written; where writing fails, part of the text may be. Either is said on standard error,
// and the program ends with status 1.
#![tactic(auto)]

ghost use Rattle.objects_text.specs.Listing.{list_of};

use std::io;
use std::process::ExitCode;
use streams::Program;

struct Objects;

impl Program<2312> for Objects {
    const UNREAD: &'static str = "objects: standard input cannot be read";

    const UNWRITTEN: &'static str = "objects: standard output cannot be written";

    ghost text_of = { list_of };

    fn text(input: &[u8], out: &mut [u8; 2312]) -> usize {
        objects_text::list(input, out)
    }
}

fn main(rt: HostRuntime) -> ExitCode {
    streams::run::<Objects, 256, 2312, _, _>(&rt, &mut rt.stdin(), &mut io::writer(&rt))
}
