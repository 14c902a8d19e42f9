// Place and copy: targets in rising level, survivors in rising cell number, each to the cell that a new object there would take.
#![tactic(auto)]

ghost use Rattle.std.specs.Prelude.{◌≢◌, ◌≡◌, ℕ, ◌<◌, ◌≤◌, length, get_or};
ghost use Rattle.lists.specs.Part.{Rises, Off};
ghost use Rattle.rules.specs.Regions.{region_at, regions};
ghost use Rattle.layout.specs.Places.{mark_of};
ghost use Rattle.layout.specs.Cells.{page_of, first_on, CellIn};
ghost use Rattle.promises.specs.Arriving.{arriving};
ghost use Rattle.pages.specs.Noted.{Noted};
ghost use Rattle.copy.specs.Taking.{Next};
ghost use Rattle.copy.specs.Cursor.{Points, Seeking};
ghost use Rattle.copy.specs.Moves.{Copied, Movable, Step};
ghost use Rattle.copy.specs.Passing.{Passing, Pass, order};
ghost use Rattle.copy.specs.Copying.{PagePass, Plan, Copy};

use rules::Sizes;

// The page that the region's next object goes to: the one that the pass is at if it has room, else the one that is found.
pub fn next_page(p: Sizes, tables: &[u32], notes: &mut [u32], region: u32, page: usize) -> usize
    requires seeking { Seeking p region tables.now page }
    requires noted { Noted p tables.now notes.old }
    ensures next { Next p region result tables.now }
    ensures noted_2 { Noted p tables.now notes.new }
{
    if layout::tables::used(p, tables, page) < layout::cells::CELLS as u32 {
        page
    } else {
        pages::page_for(p, tables, notes, region).unwrap()
    }
}

// The words of one cell go to another, with word 1 zero; word 1 of the old cell becomes the reference to the new one.
pub fn copy_cell(cells: &mut [u32], old: usize, new: usize)
    requires nonzero { old ≢ new }
    requires cell_in { CellIn old (length cells.old) }
    requires cell_in_2 { CellIn new (length cells.old) }
    ensures { Copied old new cells.old cells.new }
{
    let from = layout::cells::WORDS * old;
    cells.copy_within(
        from..from + layout::cells::WORDS,
        layout::cells::WORDS * new,
    );
    layout::cells::set_work(cells, new, 0);
    layout::cells::set_work(cells, old, layout::cells::ref_to(new));
}

// A survivor goes to the first unused cell of a page of the region, and its mark to the upper half of the word.
pub fn move_cell(
    p: Sizes,
    cells: &mut [u32],
    tables: &mut [u32],
    region: u32,
    page: usize,
    cell: usize,
)
    requires { Movable p region page cells.old tables.old cell }
    ensures { Step p region page cell cells.old tables.old cells.new tables.new }
{
    let new = pages::take_cell(p, tables, page, region);
    copy_cell(cells, cell, new);
    let home = layout::cells::page_of(cell);
    let place = layout::cells::place_of(cell);
    let others = layout::bits::without_bit(layout::tables::mark(p, tables, home), place as u32);
    let marks = layout::bits::with_bit(others, layout::cells::CELLS + place);
    layout::tables::set_mark(p, tables, home, marks);
}

// The survivors on a page that go to a region, in rising cell number: as many wait as the lower half of its mark word has ones. The answer is
// the page that the pass is at then.
pub fn copy_page(
    p: Sizes,
    cells: &mut [u32],
    tables: &mut [u32],
    notes: &mut [u32],
    region: u32,
    page: usize,
    at: usize,
) -> usize
    requires passing { Passing p region cells.old tables.old }
    requires points { Points p tables.old region at }
    requires page_lt_pages { page < p.pages }
    requires noted { Noted p tables.old notes.old }
    ensures page_pass { PagePass p region page result cells.old tables.old cells.new tables.new }
    ensures noted_2 { Noted p tables.new notes.new }
{
    let waiting = layout::bits::lower_half(layout::tables::mark(p, tables, page));
    let mut next = at;
    let mut left = waiting;
    for _ in 0..waiting.count_ones() {
        let i = left.trailing_zeros();
        let cell = layout::cells::cell_on(page, i as usize);
        if layout::cells::work(cells, cell) == region {
            next = next_page(p, tables, notes, region, next);
            move_cell(p, cells, tables, region, next, cell);
        }
        left = layout::bits::without_bit(left, i);
    }
    next
}

// The survivors that go to a region, all on the listed pages.
pub fn copy_pass(
    p: Sizes,
    cells: &mut [u32],
    tables: &mut [u32],
    notes: &mut [u32],
    list: &[u32],
    region: u32,
)
    requires passing { Passing p region cells.old tables.old }
    requires rises { Rises p.pages (length list.now) list.now }
    requires by_index { (page : ℕ) → page < p.pages → Off list.now (length list.now) page → mark_of p tables.old page ≡ 0 }
    requires noted { Noted p tables.old notes.old }
    ensures pass { Pass p region (λ c. page_of c < p.pages) (order region 0) (order region (first_on p.pages)) cells.old tables.old cells.new tables.new }
    ensures noted_2 { Noted p tables.new notes.new }
{
    // Where no page is found nobody goes to the region.
    let Some(mut at) = pages::page_for(p, tables, notes, region) else {
        return;
    };
    for page in list {
        at = copy_page(p, cells, tables, notes, region, *page as usize, at);
    }
}

// Every survivor, by target in rising level: the region of the thread at each level below the ending one, where `come` says that some come.
pub fn copy_survivors(
    p: Sizes,
    cells: &mut [u32],
    tables: &mut [u32],
    notes: &mut [u32],
    list: &[u32],
    come: &[u32],
    thread: usize,
    levels: usize,
)
    requires plan { Plan p levels (region_at p thread) cells.old tables.old }
    requires thread_lt_threads { (thread < p.threads) × (levels ≤ p.depth) }
    requires rises { Rises p.pages (length list.now) list.now }
    requires by_index { (page : ℕ) → page < p.pages → Off list.now (length list.now) page → mark_of p tables.old page ≡ 0 }
    requires by_index_2 { (g : ℕ) → 1 ≤ g → g ≤ regions p → get_or come.now g 0 ≡ 0 → arriving p cells.old tables.old g ≡ 0 }
    requires noted { Noted p tables.old notes.old × (regions p < length come.now) }
    ensures copy { Copy p levels (region_at p thread) levels cells.old tables.old cells.new tables.new }
    ensures noted_2 { Noted p tables.new notes.new }
{
    for level in 0..levels {
        let region = layout::regions::region_at(p, thread, level);
        if come[region as usize] != 0 {
            copy_pass(p, cells, tables, notes, list, region);
        }
    }
}
