// Prints halls' lists: for each hall file of the arguments a line with its name, then what `openlist` prints for it.
#![tactic(auto)]

use std::io;
use std::rt::Files;

fn print_named(rt: &impl Print, name: &str, file: &[u8]) -> io::Result<()> {
    println!(rt; "{name}:")?;
    report::print_list(rt, file)
}

fn print_argument<R: Files + Print + Eprint>(rt: &R, words: &[String]) -> io::Result<()> {
    let name = input::argument(words, 0);
    input::answer_file(rt, name, |file| print_named(rt, name, file))
}

fn main(rt: HostRuntime) -> io::Result<()> {
    input::answer_each(&rt, 1, |words| print_argument(&rt, words))
}
