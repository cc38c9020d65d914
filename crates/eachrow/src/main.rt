// For each argument, a hall file, prints how many rows it has, and for each row the least totals of the joining choices with it and without it, NONE, or FIXED.
#![tactic(auto)]

use std::io;
use std::rt::Files;
use withwithout::Figures;

fn print_figures(rt: &impl Print, file: &[u8]) -> io::Result<()> {
    let mut with = [0; 256];
    let mut without = [0; 256];
    let reply = withwithout::with_without(file, &mut with, &mut without);
    console::print_reply(rt, reply)?;
    let Ok(filled) = reply else { return Ok(()) };
    for k in 0..filled.rows.min(256) {
        println!(rt; "{} {}", k + 1, Figures::of_numbers(with[k], without[k]))?;
    }
    Ok(())
}

fn answer<R: Files + Print + Eprint>(rt: &R, words: &[String]) -> io::Result<()> {
    let name = input::argument(words, 0);
    print!(rt; "{name}: ")?;
    input::answer_file(rt, name, |file| print_figures(rt, file))
}

fn main(rt: HostRuntime) -> io::Result<()> {
    input::answer_each(&rt, 1, |words| answer(&rt, words))
}
