// Screens choices: for each three arguments, a hall file, its rows such as 1,3 (or - for none) and a figure, prints whether they cost more and how many were read.
#![tactic(auto)]

use std::io;
use std::rt::Files;

fn print_screened(rt: &impl Print, file: &[u8], rows: &str, figure: &str) -> io::Result<()> {
    let choice = console::numbers_in(rows.as_bytes());
    let figures = console::numbers_in(figure.as_bytes());
    let Some(&figure) = figures.as_slice().first() else {
        return println!(rt; "NO FIGURE");
    };
    console::print_reply(rt, screening::over_figure(file, choice.as_slice(), figure))
}

fn screen<R: Files + Print + Eprint>(rt: &R, words: &[String]) -> io::Result<()> {
    let name = input::argument(words, 0);
    let rows = input::argument(words, 1);
    let figure = input::argument(words, 2);
    print!(rt; "{name} {rows} {figure}: ")?;
    input::answer_file(rt, name, |file| print_screened(rt, file, rows, figure))
}

fn main(rt: HostRuntime) -> io::Result<()> {
    input::answer_each(&rt, 3, |words| screen(&rt, words))
}
