// Checks choices: for each pair of arguments, a hall file and its rows such as 1,3 (or - for none), prints what the check finds.
#![tactic(auto)]

use std::io;
use std::rt::Files;

fn print_check(rt: &impl Print, file: &[u8], rows: &str) -> io::Result<()> {
    let choice = console::numbers_in(rows.as_bytes());
    console::print_reply(rt, checking::check_choice(file, choice.as_slice()))
}

fn check<R: Files + Print + Eprint>(rt: &R, words: &[String]) -> io::Result<()> {
    let name = input::argument(words, 0);
    let rows = input::argument(words, 1);
    print!(rt; "{name} {rows}: ")?;
    input::answer_file(rt, name, |file| print_check(rt, file, rows))
}

fn main(rt: HostRuntime) -> io::Result<()> {
    input::answer_each(&rt, 2, |words| check(&rt, words))
}
