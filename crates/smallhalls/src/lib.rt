// Small halls: up to 6 junctions and 10 rows, drawn by number or by chance, and written as files.
#![tactic(auto)]

pub mod drawing;
pub mod file;

ghost use Rattle.std.specs.Prelude.{◌≡◌, [], ◌∷◌, ◌++◌, ◌+◌, ◌≤◌, ◌<◌, length};

// A row between two junctions; a fixed one has no price.
#[derive(Clone, Copy, Default)]
pub struct Row {
    pub from: u8,
    pub to: u8,
    pub price: Option<u8>,
}

// Up to ten rows, in the value itself: a small hall is copied as a whole, which the kit's fixed vector is not.
#[derive(Clone, Copy)]
pub struct Rows {
    places: [Row; 10],
    count: usize,
    ghost few: { count ≤ 10 },
}

impl Rows {
    ghost use Rattle.smallhalls.specs.Listed.{listed};

    pub fn new() -> Rows
        ensures none { listed result ≡ [] }
        ensures count { result.count ≡ 0 }
    {
        Rows {
            places: [Row::default(); 10],
            count: 0,
        }
    }

    pub fn push(&mut self, row: Row)
        requires { self.old.count < 10 }
        ensures rows { listed self.new ≡ listed self.old ++ row ∷ [] }
        ensures count { self.new.count ≡ self.old.count + 1 }
    {
        self.places[self.count] = row;
        self.count += 1;
    }

    pub fn as_slice(&self) -> &[Row]
        ensures rows { result.now ≡ listed self.now }
        ensures count { length result.now ≡ self.now.count }
    {
        &self.places[..self.count]
    }

    pub fn len(&self) -> usize
        ensures { result ≡ self.now.count }
    {
        self.as_slice().len()
    }
}

#[derive(Clone, Copy)]
pub struct Small {
    pub n: usize,
    pub rows: Rows,
    ghost few: { n ≤ 6 },
}
