// One site, kept from argument to argument: 12 starts it with 12 kits, 2=9 puts 9 into its place 2, counted from 0, and another word is a hall file to admit. Prints what comes of each.
#![tactic(auto)]

use admitting::Reply;
use site::Site;
use sitewords::Word;
use std::cell::Cell;
use std::io;
use std::rt::Files;

// The site after a call, or its refusal. A refused start leaves a site too.
fn keep(rt: &impl Print, kept: &Cell<Site>, reply: Reply) -> io::Result<()> {
    kept.set(reply.site);
    match reply.answer {
        Ok(()) => sitewords::print_site(rt, &reply.site),
        Err(refusal) => println!(rt; "{refusal}"),
    }
}

fn answer<R: Files + Print + Eprint>(rt: &R, kept: &Cell<Site>, word: &str) -> io::Result<()> {
    print!(rt; "{word}: ")?;
    match sitewords::read(word) {
        Word::Start(stock) => keep(rt, kept, admitting::start(stock)),
        Word::Put(place, number) => {
            kept.set(sitewords::with_number(&kept.get(), place, number));
            println!(rt; "SET")
        }
        Word::Hall => input::answer_file(rt, word, |file| {
            keep(rt, kept, admitting::admit(kept.get(), file))
        }),
    }
}

fn main(rt: HostRuntime) -> io::Result<()> {
    let kept = Cell::new(Site::of_stock(0));
    input::answer_each(&rt, 1, |words| {
        answer(&rt, &kept, input::argument(words, 0))
    })
}
