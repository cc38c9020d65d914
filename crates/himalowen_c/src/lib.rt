// The exports of libhimalowen.a, as include/himalowen.h declares them: each is the call of that name in `himalowen`, with its promise.
#![tactic(auto)]

ghost use Rattle.himalowen.specs.Replies.{CheckLeaves, TightLeaves, RouteLeaves, FigureLeaves, RowsLeaves, PairLeaves, FiguresLeaves, SiteStartLeaves, SiteAdmitLeaves};

#[unsafe(no_mangle)]
pub extern "C" fn himalowen_check(file: &[u8], choice: &[u32], reply: &mut [u64; 4]) -> u32
    ensures { CheckLeaves file.now choice.now result reply.new }
{
    himalowen::himalowen_check(file, choice, reply)
}

#[unsafe(no_mangle)]
pub extern "C" fn himalowen_tight(
    file: &[u8],
    choice: &[u32],
    junction: u32,
    reply: &mut [u64; 4],
) -> u32
    ensures { TightLeaves file.now choice.now junction result reply.new }
{
    himalowen::himalowen_tight(file, choice, junction, reply)
}

#[unsafe(no_mangle)]
pub extern "C" fn himalowen_route(
    file: &[u8],
    choice: &[u32],
    from: u32,
    to: u32,
    rows: &mut [i32],
    reply: &mut [u64; 5],
) -> u32
    ensures { RouteLeaves file.now choice.now from to result reply.new rows.old rows.new }
{
    himalowen::himalowen_route(file, choice, from, to, rows, reply)
}

#[unsafe(no_mangle)]
pub extern "C" fn himalowen_over_figure(
    file: &[u8],
    choice: &[u32],
    figure: u32,
    reply: &mut [u64; 4],
) -> u32
    ensures { FigureLeaves file.now choice.now figure result reply.new }
{
    himalowen::himalowen_over_figure(file, choice, figure, reply)
}

#[unsafe(no_mangle)]
pub extern "C" fn himalowen_plan_rows(file: &[u8], rows: &mut [u32], reply: &mut [u64; 4]) -> u32
    ensures { RowsLeaves file.now result reply.new rows.old rows.new }
{
    himalowen::himalowen_plan_rows(file, rows, reply)
}

#[unsafe(no_mangle)]
pub extern "C" fn himalowen_plan_cuts(
    file: &[u8],
    shores: &mut [u64],
    weights: &mut [u32],
    levels: &mut [i32],
    reply: &mut [u64; 4],
) -> u32
    ensures { PairLeaves file.now result reply.new shores.old shores.new
        weights.old weights.new levels.old levels.new }
{
    himalowen::himalowen_plan_cuts(file, shores, weights, levels, reply)
}

#[unsafe(no_mangle)]
pub extern "C" fn himalowen_with_without(
    file: &[u8],
    with: &mut [u32],
    without: &mut [u32],
    reply: &mut [u64; 3],
) -> u32
    ensures { FiguresLeaves file.now result reply.new with.old with.new without.old without.new }
{
    himalowen::himalowen_with_without(file, with, without, reply)
}

#[unsafe(no_mangle)]
pub extern "C" fn himalowen_site_start(
    stock: u32,
    site: &mut [u32; 2059],
    reply: &mut [u64; 2],
) -> u32
    ensures { SiteStartLeaves stock result reply.new site.new }
{
    himalowen::himalowen_site_start(stock, site, reply)
}

#[unsafe(no_mangle)]
pub extern "C" fn himalowen_site_admit(
    file: &[u8],
    site: &mut [u32; 2059],
    reply: &mut [u64; 2],
) -> u32
    ensures { SiteAdmitLeaves file.now result reply.new site.old site.new }
{
    himalowen::himalowen_site_admit(file, site, reply)
}
