// What the programs share: numbers from text, and the lines that they print.
#![tactic(auto)]

ghost use Rattle.std.specs.Prelude.{◌≡◌, unwrap_or, slice_get};

use arrayvec::ArrayVec;
use std::fmt::Display;
use std::io;

// A digit that would make its number more than 4,294,967,295 is left out.
fn with_digit(number: u32, digit: u32) -> u32 {
    number
        .checked_mul(10)
        .and_then(|tens| tens.checked_add(digit))
        .unwrap_or(number)
}

fn number_of(digits: &[u8]) -> u32 {
    digits
        .iter()
        .filter_map(|digit| char::from(*digit).to_digit(10))
        .fold(0, with_digit)
}

// The numbers that stand in a text, whatever stands between them. Those after the first 257 are left out: 257 are no choice already.
pub fn numbers_in(text: &[u8]) -> ArrayVec<u32, 257> {
    let mut numbers = ArrayVec::new();
    for digits in text.split(|byte| !byte.is_ascii_digit()) {
        if !digits.is_empty() && !numbers.is_full() {
            numbers.push(number_of(digits));
        }
    }
    numbers
}

// The first of numbers; 0, which the calls refuse as they refuse any number that is no junction, where there is none.
pub fn first_of(numbers: &[u32]) -> u32
    ensures { result ≡ unwrap_or (slice_get numbers.now 0) 0 }
{
    numbers.first().copied().unwrap_or(0)
}

// A reply's line, that of its refusal where it has one.
pub fn print_reply<T: Display + Drop, E: Display + Drop>(
    rt: &impl Print,
    reply: Result<T, E>,
) -> io::Result<()> {
    match reply {
        Ok(found) => println!(rt; "{found}"),
        Err(refusal) => println!(rt; "{refusal}"),
    }
}

// The line of a route: the first numbers of a list, as many as said and as it has.
pub fn print_route(rt: &impl Print, rows: &[i32], count: usize) -> io::Result<()> {
    print!(rt; "ROUTE")?;
    for row in rows.iter().take(count) {
        print!(rt; " {row}")?;
    }
    println!(rt;)
}
