// How many slots would cross after the end of r, counted on the old cells: remembered slots outside r, and the survivors' own. A survivor
// lies then where its word 1 says.
ghost use Rattle.std.specs.Prelude.{◌≡◌, ◌<◌, ◌≤◌, length};
ghost use Rattle.lists.specs.Counting.{bit};
ghost use Rattle.lists.specs.Part.{Rises, Lists};
ghost use Rattle.rules.specs.Regions.{regions};
ghost use Rattle.layout.specs.Places.{Room, owner_of, slot_in, entries_used, cells_words};
ghost use Rattle.layout.specs.Cells.{page_of, most_fields};
ghost use Rattle.layout.specs.Words.{Begins};
ghost use Rattle.remember.specs.Table.{Table};
ghost use Rattle.chains.specs.Chains.{ChainsWhole};
ghost use Rattle.promises.specs.Whole.{IsRef};
ghost use Rattle.mark.specs.Marks.{Shaped};
ghost use Rattle.mark.specs.Holders.{Holding};
ghost use Rattle.census.specs.Counted.{over_marked};
ghost use Rattle.census.specs.After.{home_after, cross_after, cell_crosses, slot_crosses, entries_cross, crossing_counted};
ghost use Rattle.census.specs.OnPages.{slots_on, slots_listed};
ghost use Rattle.census.specs.Going.{OthersStay, entries_go};

use layout::Kind;
use remember::crossing::other_region;
use remember::entries::find_entry;
use rules::Sizes;

// The region after the end of the object in cell c, which lives on.
pub fn home_after(p: Sizes, cells: &[u32], tables: &[u32], c: usize) -> u32
    requires room { Room p (length tables.now) }
    requires c_bound { (page_of c < p.pages) × (cells_words p ≤ length cells.now) }
    ensures { result ≡ home_after p cells.now tables.now c }
{
    let target = layout::cells::work(cells, c);
    if target != 0 {
        return target;
    }
    layout::tables::owner(p, tables, layout::cells::page_of(c))
}

// Whether reference x, in an object that lies in region `home` afterwards, crosses then.
pub fn crosses(p: Sizes, cells: &[u32], tables: &[u32], home: u32, x: u32) -> bool
    requires room { Room p (length tables.now) }
    requires p_in_bounds { cells_words p ≤ length cells.now }
    requires fact { IsRef p cells.now tables.now x }
    ensures { bit result ≡ cross_after p cells.now tables.now home x }
{
    if x == 0 {
        return false;
    }
    let h = home_after(p, cells, tables, layout::cells::cell_named(x));
    other_region(home, h) != 0
}

// How many slots of survivor c cross.
pub fn cross_cell(p: Sizes, cells: &[u32], tables: &[u32], c: usize) -> usize
    requires shaped { Shaped p cells.now tables.now }
    requires begins { Begins p cells.now tables.now c }
    ensures value { result ≡ cell_crosses p cells.now tables.now c }
    ensures upper_bound { result ≤ most_fields }
{
    let home = layout::cells::work(cells, c);
    let refs = layout::cells::field_count(Kind::Reference, layout::cells::head(cells, c));
    let mut n = 0;
    for f in 0..refs {
        let x = layout::cells::field(cells, c, f);
        n += usize::from(crosses(p, cells, tables, home, x));
    }
    n
}

// Whether the slot of entry i lies outside r and crosses.
pub fn cross_entry(
    p: Sizes,
    cells: &[u32],
    remember: &[u32],
    tables: &[u32],
    r: u32,
    i: usize,
) -> bool
    requires shaped { Shaped p cells.now tables.now }
    requires holding { Holding p cells.now remember.now tables.now }
    requires i_bound { i < entries_used remember.now }
    ensures { bit result ≡ slot_crosses p cells.now tables.now r (slot_in remember.now i) }
{
    let at = layout::remember::slot(p.entries, remember, i) as usize;
    let home = layout::tables::owner(p, tables, layout::cells::page_at(at));
    home != r && crosses(p, cells, tables, home, cells[at])
}

// How many entries are of slots on a page: those from its first word up to its end, which stand together.
pub fn own_on(p: Sizes, remember: &[u32], page: usize) -> usize
    requires table { Table p.entries remember.now }
    requires entries_bound { (p.entries ≤ 4096) × (page < 1024) }
    ensures { result ≡ slots_on remember.now page }
{
    let first = 256 * page;
    let low = find_entry(p.entries, remember, first as u32);
    find_entry(p.entries, remember, (first + 256) as u32) - low
}

// How many entries are of slots on the listed pages. A `for`: of `map` and `sum` over the list the bounds that each page asks stayed open.
pub fn own_entries(p: Sizes, remember: &[u32], list: &[u32]) -> usize
    requires table { Table p.entries remember.now }
    requires entries_bound { (p.entries ≤ 4096) × (p.pages ≤ 1024) }
    requires rises { Rises p.pages (length list.now) list.now }
    ensures { result ≡ slots_listed remember.now list.now (length list.now) }
{
    let mut k = 0;
    for page in list {
        k += own_on(p, remember, *page as usize);
    }
    k
}

// How many of the entries into r, which its chain leads to, are of slots that will not cross.
pub fn gone_entries(
    p: Sizes,
    cells: &[u32],
    remember: &[u32],
    tables: &[u32],
    chains: &[u32],
    r: u32,
) -> usize
    requires shaped { Shaped p cells.now tables.now }
    requires holding { Holding p cells.now remember.now tables.now }
    requires chains_whole { ChainsWhole p remember.now chains.now }
    requires le_r { (1 ≤ r) × (r ≤ regions p) }
    ensures { result ≡ entries_go p cells.now remember.now tables.now r }
{
    let last = layout::regions::last_region(p);
    let mut n = 0;
    let mut x = layout::chains::first(chains, r as usize) as usize;
    while 0 < x {
        n += usize::from(!cross_entry(p, cells, remember, tables, r, x - 1));
        x = layout::chains::next(last, chains, x - 1) as usize;
    }
    n
}

// How many remembered slots outside r cross: all entries less those of r's own slots, on the listed pages, and those into r that go. What
// another entry points to stays, so it crosses as before.
pub fn cross_entries(
    p: Sizes,
    cells: &[u32],
    remember: &[u32],
    tables: &[u32],
    chains: &[u32],
    list: &[u32],
    r: u32,
) -> usize
    requires shaped { Shaped p cells.now tables.now }
    requires holding { Holding p cells.now remember.now tables.now }
    requires others_stay { OthersStay p cells.now tables.now r }
    requires chains_whole { ChainsWhole p remember.now chains.now }
    requires lists { Lists (λ page. owner_of p tables.now page ≡ r) p.pages (length list.now) list.now }
    requires le_r { (1 ≤ r) × (r ≤ regions p) }
    ensures value { result ≡ entries_cross p cells.now remember.now tables.now r }
    ensures upper_bound { result ≤ 4096 }
{
    let all = layout::remember::used(remember) as usize;
    let own = own_entries(p, remember, list);
    all - own - gone_entries(p, cells, remember, tables, chains, r)
}

// How many slots would cross, k of them the survivors'.
pub fn count_crossing(
    p: Sizes,
    cells: &[u32],
    remember: &[u32],
    tables: &[u32],
    chains: &[u32],
    list: &[u32],
    r: u32,
    k: usize,
) -> usize
    requires shaped { Shaped p cells.now tables.now }
    requires holding { Holding p cells.now remember.now tables.now }
    requires others_stay { OthersStay p cells.now tables.now r }
    requires chains_whole { ChainsWhole p remember.now chains.now }
    requires lists { Lists (λ page. owner_of p tables.now page ≡ r) p.pages (length list.now) list.now }
    requires le_r { (1 ≤ r) × (r ≤ regions p) }
    requires k_value { (k ≡ over_marked p tables.now (cell_crosses p cells.now tables.now) p.pages) × (k ≤ cells_words p) }
    ensures { result ≡ crossing_counted p cells.now remember.now tables.now r }
{
    cross_entries(p, cells, remember, tables, chains, list, r) + k
}
