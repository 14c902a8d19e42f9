// How many survivors go to each region, and how many of their slots would cross, in one pass over the listed pages: on each page as many
// cells as the ones count of its working word, the next one by trailing zeros.
ghost use Rattle.std.specs.Prelude.{◌≡◌, ℕ, ◌+◌, ◌^◌, ◌<◌, ◌≤◌, length, get_or};
ghost use Rattle.lists.specs.Bits.{bit_at};
ghost use Rattle.lists.specs.Part.{Rises, Off};
ghost use Rattle.layout.specs.Places.{mark_of, page_words};
ghost use Rattle.layout.specs.Cells.{work_of, page_of, cell_on, CellIn, first_on, page_cells};
ghost use Rattle.layout.specs.Marks.{marked};
ghost use Rattle.layout.specs.Words.{Begins};
ghost use Rattle.promises.specs.Arriving.{goes_to};
ghost use Rattle.mark.specs.Marks.{Shaped, Small};
ghost use Rattle.census.specs.Counted.{on_page};
ghost use Rattle.census.specs.After.{cell_crosses};
ghost use Rattle.census.specs.Census.{Census};

use crate::crossing::cross_cell;
use rules::Sizes;

// Survivor c is one more that goes where it goes.
pub fn tally(cells: &[u32], c: usize, come: &mut [u32])
    requires cell_in { CellIn c (length cells.now) }
    requires c_in_bounds { work_of cells.now c < length come.old }
    requires c_bound { get_or come.old (work_of cells.now c) 0 < 2 ^ 31 }
    ensures { (g : ℕ) → get_or come.new g 0 ≡ get_or come.old g 0 + goes_to cells.now g c }
{
    let g = layout::cells::work(cells, c) as usize;
    come[g] += 1;
}

// The survivors of a page whose bit is set in w, each added to those that go where it goes; and how many of their slots cross.
pub fn count_page(
    p: Sizes,
    cells: &[u32],
    tables: &[u32],
    come: &mut [u32],
    w: u32,
    page: usize,
) -> usize
    requires shaped { Shaped p cells.now tables.now }
    requires w_bound { (w < 2 ^ 16) × (page < p.pages) }
    requires by_index { (i : ℕ) → i < page_cells → bit_at w i ≡ 1 → Begins p cells.now tables.now (cell_on page i) }
    requires by_index_2 { (i : ℕ) → i < page_cells → bit_at w i ≡ 1 → work_of cells.now (cell_on page i) < length come.old }
    requires by_index_3 { (g : ℕ) → get_or come.old g 0 ≤ first_on page }
    ensures by_index_4 { (g : ℕ) → get_or come.new g 0 ≡ get_or come.old g 0 + on_page (goes_to cells.now g) page w }
    ensures value { result ≡ on_page (cell_crosses p cells.now tables.now) page w }
    ensures upper_bound { result ≤ page_words }
{
    let mut left = w;
    let mut n = 0;
    for _ in 0..w.count_ones() {
        let i = left.trailing_zeros();
        let c = layout::cells::cell_on(page, i as usize);
        tally(cells, c, come);
        n += cross_cell(p, cells, tables, c);
        left = layout::bits::without_bit(left, i);
    }
    n
}

// All survivors, which are on the listed pages: how many go to each region is then in `come`, and the slots of theirs that cross are
// the result.
pub fn count_listed(
    p: Sizes,
    cells: &[u32],
    tables: &[u32],
    list: &[u32],
    come: &mut [u32],
) -> usize
    requires shaped { Shaped p cells.now tables.now }
    requires rises { Rises p.pages (length list.now) list.now }
    requires by_index { (page : ℕ) → page < p.pages → Off list.now (length list.now) page → mark_of p tables.now page ≡ 0 }
    requires small { Small p tables.now }
    requires by_index_2 { (c : ℕ) → page_of c < p.pages → marked p tables.now c ≡ 1 → Begins p cells.now tables.now c }
    requires by_index_3 { (c : ℕ) → page_of c < p.pages → marked p tables.now c ≡ 1 → work_of cells.now c < length come.old }
    requires by_index_4 { (g : ℕ) → get_or come.old g 0 ≡ 0 }
    ensures { Census p cells.now tables.now p.pages come.new result }
{
    let mut k = 0;
    for page in list {
        let page = *page as usize;
        let w = layout::tables::mark(p, tables, page);
        k += count_page(p, cells, tables, come, w, page);
    }
    k
}
