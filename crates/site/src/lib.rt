// A site by value: its stock, the kits left, and the plans of up to 8 halls in two arrays. Any numbers may stand in it; `is_sound` tests them.
#![tactic(auto)]

ghost use Rattle.std.specs.Prelude.{◌≡◌, true, cond, ◌≤◌, ◌<◌, length, get_or, [], Some, None};
ghost use Rattle.hall.specs.Hall.{ascends_from};
ghost use Rattle.stock.specs.Site.{site, sound, all_plans, opened_rows, admitted};
ghost use Rattle.stock.specs.Site as stock;
ghost use Rattle.site.specs.Site.{numbers, site_of, Holds};

// The largest stock that a site can start with.
pub const MOST_KITS: u32 = 2048;

// The most halls that a site can have.
pub const MOST_HALLS: u32 = 8;

// The kits that a site started with, those left, how many halls it has, how long their plans are, and their rows, 256 places each.
#[derive(Clone, Copy)]
pub struct Site {
    pub stock: u32,
    pub left: u32,
    pub halls: u32,
    pub lengths: [u32; 8],
    pub rows: [u32; 2048],
}

impl Site {
    // A site without halls.
    pub fn of_stock(stock: u32) -> Site
        ensures { Holds result (site stock stock []) }
    {
        Site {
            stock,
            left: stock,
            halls: 0,
            lengths: [0; 8],
            rows: [0; 2048],
        }
    }

    // The site that 2,059 numbers stand for.
    pub fn of_places(places: &[u32; 2059]) -> Site
        ensures { numbers result ≡ places.now }
    {
        let mut lengths = [0; 8];
        lengths.copy_from_slice(&places[3..11]);
        let mut rows = [0; 2048];
        rows.copy_from_slice(&places[11..]);
        Site {
            stock: places[0],
            left: places[1],
            halls: places[2],
            lengths,
            rows,
        }
    }

    // Its 2,059 numbers.
    pub fn places(&self) -> [u32; 2059]
        ensures { result ≡ numbers self.now }
    {
        let mut places = [0; 2059];
        places[0] = self.stock;
        places[1] = self.left;
        places[2] = self.halls;
        places[3..11].copy_from_slice(&self.lengths);
        places[11..].copy_from_slice(&self.rows);
        places
    }

    // The plan of the hall at a place, from 0.
    fn plan(&self, k: usize) -> &[u32]
        requires { (k < self.now.halls) × (self.now.halls ≤ 8) × (get_or self.now.lengths k 0 ≤ 256) }
        ensures { result.now ≡ get_or (site_of self.now).plans k [] }
    {
        let from = 256 * k;
        &self.rows[from..from + self.lengths[k] as usize]
    }

    // What stands for that plan ascends from 1 to 256.
    fn has_plan(&self, k: usize) -> bool
        requires { (k < self.now.halls) × (self.now.halls ≤ 8) }
        ensures { result ≡ ascends_from 1 256 (get_or (site_of self.now).plans k []) }
    {
        self.lengths[k] <= 256 && choice::ascends(self.plan(k), 256)
    }

    // How many rows the plans open; none where one of them is no plan.
    fn opened(&self) -> Option<u32>
        requires { self.now.halls ≤ 8 }
        ensures { result ≡ cond (all_plans (site_of self.now).plans) (Some (opened_rows (site_of self.now).plans)) None }
    {
        let mut opened = 0;
        for k in 0..self.halls as usize {
            if !self.has_plan(k) {
                return None;
            }
            opened += self.lengths[k];
        }
        Some(opened)
    }

    // Limits are kept, plans are plans, and the kits left are the stock less the opened rows.
    pub fn is_sound(&self) -> bool
        ensures { result ≡ sound (site_of self.now) }
    {
        if self.stock > MOST_KITS || self.halls > MOST_HALLS {
            return false;
        }
        match self.opened() {
            Some(opened) => u64::from(self.left) + u64::from(opened) == u64::from(self.stock),
            None => false,
        }
    }

    // One plan more, at the end.
    fn add(&mut self, plan: &[u32])
        requires { (self.old.halls < 8) × (length plan.now ≤ 256) × (length plan.now ≤ self.old.left) }
        ensures { (t : stock.Site) → Holds self.old t → Holds self.new (admitted t plan.now) }
    {
        let k = self.halls as usize;
        let from = 256 * k;
        self.lengths[k] = plan.len() as u32;
        self.rows[from..from + plan.len()].copy_from_slice(plan);
        self.halls += 1;
        self.left -= plan.len() as u32;
    }

    // The same site with 0 in the places that it does not use.
    fn tidied(&self) -> Site
        requires { sound (site_of self.now) ≡ true }
        ensures { Holds result (site_of self.now) }
    {
        let mut site = Site::of_stock(self.stock);
        for k in 0..self.halls as usize {
            site.add(self.plan(k));
        }
        site
    }

    // The site with one plan more, at the end, and 0 in the places that it does not use.
    pub fn with_plan(&self, plan: &[u32]) -> Site
        requires { (sound (site_of self.now) ≡ true) × (self.now.halls < 8) × (length plan.now ≤ 256) × (length plan.now ≤ self.now.left) }
        ensures { Holds result (admitted (site_of self.now) plan.now) }
    {
        let mut site = self.tidied();
        site.add(plan);
        site
    }
}
