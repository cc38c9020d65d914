// What a program over a site reads and prints: words, and a site's line.
#![tactic(auto)]

use site::Site;
use std::io;

// What a word asks of a site.
pub enum Word {
    Start(u32),
    Put(u32, u32),
    Hall,
}

// The site with another number in one of its places, counted from 0. A place that it has not is passed over.
pub fn with_number(site: &Site, place: u32, number: u32) -> Site {
    let mut places = site.places();
    if let Some(held) = places.get_mut(place as usize) {
        *held = number;
    }
    Site::of_places(&places)
}

fn is_number(word: &str) -> bool {
    !word.is_empty() && word.bytes().all(|byte| byte.is_ascii_digit())
}

// The one number of a word.
fn number(word: &str) -> u32 {
    console::first_of(console::numbers_in(word.as_bytes()).as_slice())
}

// 12 is a start, 2=9 a number for a place, and another word the name of a hall file.
pub fn read(word: &str) -> Word {
    if is_number(word) {
        return Word::Start(number(word));
    }
    match word.split_once('=') {
        Some((place, held)) if is_number(place) && is_number(held) => {
            Word::Put(number(place), number(held))
        }
        _ => Word::Hall,
    }
}

// The first rows of a plan's places with commas, - for none.
fn print_plan(rt: &impl Print, rows: &[u32], count: usize) -> io::Result<()> {
    print!(rt; " ")?;
    if count == 0 {
        return print!(rt; "-");
    }
    for (i, row) in rows.iter().take(count).enumerate() {
        let comma = if i == 0 { "" } else { "," };
        print!(rt; "{comma}{row}")?;
    }
    Ok(())
}

// The line of a site: its stock, the kits left, and its plans.
pub fn print_site(rt: &impl Print, site: &Site) -> io::Result<()> {
    print!(rt; "STOCK {} LEFT {} PLANS", site.stock, site.left)?;
    let halls = site.rows.chunks(256).zip(&site.lengths);
    for (rows, count) in halls.take(site.halls as usize) {
        print_plan(rt, rows, *count as usize)?;
    }
    println!(rt;)
}
