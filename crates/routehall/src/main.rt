// Routes: for each four arguments, a hall file, its rows such as 1,3 (or - for none) and two junctions, prints the route from the first to the second.
#![tactic(auto)]

use answers::Finding;
use routing::Way;
use std::io;
use std::rt::Files;

fn print_way(rt: &impl Print, file: &[u8], rows: &str, from: &str, to: &str) -> io::Result<()> {
    let choice = console::numbers_in(rows.as_bytes());
    let from = console::first_of(console::numbers_in(from.as_bytes()).as_slice());
    let to = console::first_of(console::numbers_in(to.as_bytes()).as_slice());
    let mut route = [0i32; 63];
    match routing::route(file, choice.as_slice(), from, to, &mut route) {
        Ok(Way::Route(steps)) => console::print_route(rt, &route, steps),
        Ok(Way::Misses(shore)) => rt.println(Finding::Misses(shore)),
        Err(refusal) => rt.println(refusal),
    }
}

fn find_way<R: Files + Print + Eprint>(rt: &R, words: &[String]) -> io::Result<()> {
    let name = input::argument(words, 0);
    let rows = input::argument(words, 1);
    let from = input::argument(words, 2);
    let to = input::argument(words, 3);
    print!(rt; "{name} {rows} {from} {to}: ")?;
    input::answer_file(rt, name, |file| print_way(rt, file, rows, from, to))
}

fn main(rt: HostRuntime) -> io::Result<()> {
    input::answer_each(&rt, 4, |words| find_way(&rt, words))
}
