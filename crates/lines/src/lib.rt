// A text in fixed memory, and what is appended to it: numbers, levels, sets of junctions, and the lines made of them.
// It stands on `arrayvec` for the memory, on `itoa` for digits, on `junctions` for what a set holds, and on `hall` for a cut.
// A clause sees a text as the list of its bytes: each writer promises the old bytes with its own behind them.
#![tactic(auto, unfolding(crate::specs::Lines::text, crate::specs::Lines::item, crate::specs::Lines::number_line, crate::specs::Lines::pair_line, crate::specs::Lines::four_line, crate::specs::Lines::cut_line, crate::specs::Lines::level_item, crate::specs::Lines::level_text, hall::specs::Plan::cut))]

ghost use Rattle.std.specs.Prelude.{◌≡◌, [], ◌∷◌, ◌++◌, ◌+◌, ◌≤◌, ◌<◌, length};
ghost use Rattle.hall.specs.Plan.{cut};
ghost use Rattle.lines.specs.Lines.{decimal, item, level_text, number_line, pair_line, four_line, set_text, cut_line, level_item};

use arrayvec::ArrayVec;
use itoa::Buffer;
use junctions::Junctions;
use std::marker::Model;

/// A text of at most `N` bytes. Its lines are not made by `write!`: there a full text would be an error to handle, here the room is asked for and no writer fails.
#[derive(Drop)]
pub struct Text<const N: usize> {
    bytes: ArrayVec<u8, N>,
}

impl<const N: usize> Model for Text<N> {
    ghost use Rattle.std.specs.Prelude.{List, ℕ};

    ghost Value = { List ℕ };

    ghost view = { λ t. t.bytes.items };
}

impl<const N: usize> Text<N> {
    pub fn new() -> Self
        ensures { result ≡ [] }
    {
        Text {
            bytes: ArrayVec::new(),
        }
    }

    // Makes the text empty, in place.
    pub fn clear(&mut self)
        ensures { self.new ≡ [] }
    {
        self.bytes.clear();
    }

    pub fn as_bytes(&self) -> &[u8]
        ensures { result.now ≡ self.now }
    {
        self.bytes.as_slice()
    }

    pub fn push(&mut self, byte: u8)
        requires { length self.old < N }
        ensures { self.new ≡ self.old ++ byte ∷ [] }
    {
        self.bytes.push(byte);
    }

    pub fn push_bytes(&mut self, bytes: &[u8])
        requires { length self.old + length bytes.now ≤ N }
        ensures { self.new ≡ self.old ++ bytes.now }
    {
        for byte in bytes {
            self.push(*byte);
        }
    }

    fn push_number(&mut self, number: u64)
        requires { length self.old + length (decimal number) ≤ N }
        ensures { self.new ≡ self.old ++ decimal number }
    {
        let mut digits = Buffer::new();
        self.push_bytes(digits.format(number).as_bytes());
    }

    // A number with a space before it.
    fn push_item(&mut self, number: u64)
        requires { length self.old + length (item number) ≤ N }
        ensures { self.new ≡ self.old ++ item number }
    {
        self.push(b' ');
        self.push_number(number);
    }

    // A level with a space before it: at most 12 bytes. An item's number has no sign, and one writer for both would need one definition for both.
    pub fn push_level(&mut self, level: i32)
        requires { length self.old + 12 ≤ N }
        ensures appended { self.new ≡ self.old ++ level_item level }
        ensures short { length (level_item level) ≤ 12 }
    {
        let mut digits = Buffer::new();
        self.push(b' ');
        self.push_bytes(digits.format(level).as_bytes());
    }

    pub fn push_number_line(&mut self, word: &[u8], a: u64)
        requires { length self.old + length (number_line word.now a) ≤ N }
        ensures { self.new ≡ self.old ++ number_line word.now a }
    {
        self.push_bytes(word);
        self.push_number(a);
        self.push(b'\n');
    }

    pub fn push_pair_line(&mut self, word: &[u8], a: u64, b: u64)
        requires { length self.old + length (pair_line word.now a b) ≤ N }
        ensures { self.new ≡ self.old ++ pair_line word.now a b }
    {
        self.push_bytes(word);
        self.push_number(a);
        self.push_item(b);
        self.push(b'\n');
    }

    // A row's line: at most 30 bytes, since its ends have 8 bits, its number and price 32.
    #[tactic(auto, using(crate::proofs::Decimal::short_numbers), unfolding(crate::specs::Lines::text, crate::specs::Lines::item, crate::specs::Lines::four_line))]
    pub fn push_row_line(&mut self, row: u32, from: u8, to: u8, price: u32)
        requires { length self.old + 30 ≤ N }
        ensures appended { self.new ≡ self.old ++ four_line row from to price }
        ensures short { length (four_line row from to price) ≤ 30 }
    {
        self.push_number(u64::from(row));
        self.push_item(u64::from(from));
        self.push_item(u64::from(to));
        self.push_item(u64::from(price));
        self.push(b'\n');
    }

    // The junctions of a set, a space before each.
    fn push_set(&mut self, set: u64, n: usize)
        requires n_bound { n ≤ 64 }
        requires room { length self.old + length (set_text n 1 set) ≤ N }
        ensures { self.new ≡ self.old ++ set_text n 1 set }
    {
        for k in 0..n {
            if Junctions(set).holds(k + 1) {
                self.push_item(k as u64 + 1);
            }
        }
    }

    // A cut's line: at most 203 bytes, 3 for each junction and 11 for the weight and the line's end.
    pub fn push_cut_line(&mut self, n: usize, shore: u64, weight: u32)
        requires n_bound { n ≤ 64 }
        requires room { length self.old + 203 ≤ N }
        ensures appended { self.new ≡ self.old ++ cut_line n (cut shore weight) }
        ensures short { length (cut_line n (cut shore weight)) ≤ 203 }
    {
        self.push_number(u64::from(weight));
        self.push_set(shore, n);
        self.push(b'\n');
    }
}
