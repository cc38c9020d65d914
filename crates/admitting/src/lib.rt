// Several halls on one stock of kits: a site starts, and halls are admitted to it one by one. What each call leaves in every place is said in `stock`.
#![tactic(auto)]

ghost use Rattle.refusals.specs.Kinds.{answered};
ghost use Rattle.stock.specs.Places.{StartLeaves, AdmitLeaves};
ghost use Rattle.site.specs.Site.{numbers};
ghost use Rattle.admitting.specs.Admits.{Admits};

use refusals::Kind;
use site::{MOST_HALLS, MOST_KITS, Site};

// What a call on a site gives back: the site after it, and whether it was refused.
#[derive(Clone, Copy)]
pub struct Reply {
    pub site: Site,
    pub answer: Result<(), Kind>,
}

// A site with so many kits and no halls; of stock 0 where refusal 12 turns it back.
pub fn start(stock: u32) -> Reply
    ensures { StartLeaves stock (answered result.answer) (numbers result.site) }
{
    if stock > MOST_KITS {
        return Reply {
            site: Site::of_stock(0),
            answer: Err(Kind::Site),
        };
    }
    Reply {
        site: Site::of_stock(stock),
        answer: Ok(()),
    }
}

// The site with the plan of a hall at the end of its list, and a kit less for each row that it opens.
fn with_hall(site: &Site, file: &[u8]) -> Result<Site, Kind>
    ensures { Admits site.now file.now result }
{
    if !site.is_sound() {
        return Err(Kind::Site);
    }
    let mut rows = [0; 256];
    let plan = planrows::plan_rows(file, &mut rows)?;
    if site.halls == MOST_HALLS {
        return Err(Kind::HallCount);
    }
    if site.left < plan.chosen {
        return Err(Kind::KitStock);
    }
    Ok(site.with_plan(&rows[..plan.chosen as usize]))
}

// The site with a hall admitted to it: refusals 12, 2 to 9, 15, 13 and 14 in their order, and after one the site as it came.
pub fn admit(site: Site, file: &[u8]) -> Reply
    ensures { AdmitLeaves (numbers site) file.now (answered result.answer) (numbers result.site) }
{
    match with_hall(&site, file) {
        Ok(site) => Reply {
            site,
            answer: Ok(()),
        },
        Err(kind) => Reply {
            site,
            answer: Err(kind),
        },
    }
}
