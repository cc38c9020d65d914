// Reads a hall from standard input and prints its list: the rows to open, their total, the cuts and the levels. Where the input
// cannot be read to its end it prints nothing, and standard error says why. Where the output cannot be written it ends.
#![tactic(auto)]

use std::alloc::AllocGlobal;
use std::io;

// What the system says of an error, without its number.
fn words_of(text: &str) -> &str {
    text.split_once(" (os error ")
        .map_or(text, |(words, _)| words)
}

fn say_why<R: Eprint + AllocGlobal>(rt: &R, error: io::Error) -> io::Result<()> {
    let text = format!(in rt.alloc(); "{error}")?;
    let words = words_of(&text);
    eprintln!(rt; "standard input: {words}")
}

fn main(rt: HostRuntime) {
    let mut room = [0; input::ROOM];
    match input::read_all(&mut rt.reader(), &mut room) {
        Ok(size) => {
            let _ = report::print_list(&rt, &room[..size]);
        }
        Err(error) => {
            let _ = say_why(&rt, error);
        }
    }
}
