// Each kept cell is told its new place: the kept cells are numbered in rising order, and number k goes to place k of the listed pages.
ghost use Rattle.std.specs.Prelude.{◌≡◌, ◌/◌, ◌<◌, ◌≤◌, length, get_or};
ghost use Rattle.layout.specs.Cells.{first_on, page_cells};
ghost use Rattle.layout.specs.Places.{Room, cells_words};
ghost use Rattle.rules.specs.Pages.{place_in};
ghost use Rattle.slide.specs.Ranks.{rank, MarksListed};
ghost use Rattle.slide.specs.Numbered.{NumberedHere, Numbered};

use rules::Sizes;

// Place k of the listed pages.
fn place_in(list: &[u32], k: usize) -> usize
    requires { (k / page_cells < length list.now) × (get_or list.now (k / page_cells) 0 < 1024) }
    ensures { result ≡ place_in list.now k }
{
    let page = list[k / layout::cells::CELLS] as usize;
    layout::cells::cell_on(page, k % layout::cells::CELLS)
}

// The kept cells of a page, where so many are before it. The answer is how many there are with its own. As many as the
// page's word has ones, the next one by trailing zeros.
fn number_page(
    p: Sizes,
    cells: &mut [u32],
    tables: &[u32],
    list: &[u32],
    page: usize,
    before: usize,
) -> usize
    requires room { Room p (length tables.now) }
    requires p_in_bounds { cells_words p ≤ length cells.old }
    requires marks_listed { MarksListed p (length list.now) list.now tables.now }
    requires page_lt_pages { (page < p.pages) × (before ≡ rank p tables.now (first_on page)) }
    ensures { NumberedHere p list.now tables.now page cells.old cells.new result page_cells }
{
    let mut left = layout::tables::mark(p, tables, page);
    let after = before + left.count_ones() as usize;
    for k in before..after {
        let i = left.trailing_zeros();
        let cell = layout::cells::cell_on(page, i as usize);
        layout::cells::set_work(cells, cell, layout::cells::ref_to(place_in(list, k)));
        left = layout::bits::without_bit(left, i);
    }
    after
}

// The kept cells of all listed pages. The answer is how many there are.
pub fn number_kept(p: Sizes, cells: &mut [u32], tables: &[u32], list: &[u32]) -> usize
    requires room { Room p (length tables.now) }
    requires p_in_bounds { cells_words p ≤ length cells.old }
    requires marks_listed { MarksListed p (length list.now) list.now tables.now }
    ensures { Numbered p list.now tables.now cells.old cells.new result }
{
    let mut k = 0;
    for page in list {
        k = number_page(p, cells, tables, list, *page as usize, k);
    }
    k
}
