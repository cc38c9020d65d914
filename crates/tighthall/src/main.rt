// Tight neighbourhoods: for each three arguments, a hall file, its rows such as 1,3 (or - for none) and a junction, prints what is found.
#![tactic(auto)]

use std::io;
use std::rt::Files;

fn print_around(rt: &impl Print, file: &[u8], rows: &str, junction: &str) -> io::Result<()> {
    let choice = console::numbers_in(rows.as_bytes());
    let junction = console::first_of(console::numbers_in(junction.as_bytes()).as_slice());
    let reply = neighbourhood::tight_neighbourhood(file, choice.as_slice(), junction);
    console::print_reply(rt, reply)
}

fn look_around<R: Files + Print + Eprint>(rt: &R, words: &[String]) -> io::Result<()> {
    let name = input::argument(words, 0);
    let rows = input::argument(words, 1);
    let junction = input::argument(words, 2);
    print!(rt; "{name} {rows} {junction}: ")?;
    input::answer_file(rt, name, |file| print_around(rt, file, rows, junction))
}

fn main(rt: HostRuntime) -> io::Result<()> {
    input::answer_each(&rt, 3, |words| look_around(&rt, words))
}
