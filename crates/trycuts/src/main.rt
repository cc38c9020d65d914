// Plans the hall files of the arguments into lists of several lengths. With cuts as structs, prints whether the reply and every place
// are those of the call with cuts in two number lists; of each call with a list that is too short, whether every place is as it was.
#![tactic(auto)]

use std::io;
use std::rt::Files;

fn try_file(rt: &impl Print, name: &str, file: &[u8]) -> io::Result<()> {
    let tried = [
        ("0 cuts", lending::both(file, 0)),
        ("124 cuts", lending::both(file, 124)),
        ("125 cuts", lending::both(file, 125)),
        ("126 cuts", lending::both(file, 126)),
        ("255 rows", lending::rows(file, 255)),
        ("0 rows", lending::rows(file, 0)),
        ("124 shores", lending::pairs(file, 124, 125, 64)),
        ("124 weights", lending::pairs(file, 125, 124, 64)),
        ("63 levels", lending::pairs(file, 125, 125, 63)),
        ("no places", lending::pairs(file, 0, 0, 0)),
        ("63 levels beside structs", lending::structs(file, 125, 63)),
    ];
    for (what, tried) in tried {
        print!(rt; "{name}, {what}: {} ", tried.told)?;
        console::print_reply(rt, tried.reply)?;
    }
    Ok(())
}

fn try_argument<R: Files + Print + Eprint>(rt: &R, words: &[String]) -> io::Result<()> {
    let name = input::argument(words, 0);
    input::answer_file(rt, name, |file| try_file(rt, name, file))
}

fn main(rt: HostRuntime) -> io::Result<()> {
    input::answer_each(&rt, 1, |words| try_argument(&rt, words))
}
