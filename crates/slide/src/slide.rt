// The kept cells go to their places, in rising order and in place: no place lies above its cell, so nothing is written over that is still
// to go.
ghost use Rattle.std.specs.Prelude.{◌<◌, ◌≤◌, length, get_or};
ghost use Rattle.layout.specs.Cells.{work_of, cell_named, first_on, page_cells, CellIn};
ghost use Rattle.layout.specs.Places.{Room, cells_words};
ghost use Rattle.slide.specs.Ranks.{MarksListed};
ghost use Rattle.slide.specs.Slid.{CellSlid, NamedFrom, SlidHere, Slid};

use rules::Sizes;

// A cell goes to the one that its word 1 names. One that stays has only word 1 cleared.
fn slide_cell(cells: &mut [u32], cell: usize)
    requires cell_in { CellIn cell (length cells.old) }
    requires cell_nonzero { (0 < work_of cells.old cell) × CellIn (cell_named (work_of cells.old cell)) (length cells.old) }
    ensures { CellSlid cell (cell_named (work_of cells.old cell)) cells.old cells.new }
{
    let new = layout::cells::cell_named(layout::cells::work(cells, cell));
    if new != cell {
        copy::copy_cell(cells, cell, new);
    } else {
        layout::cells::set_work(cells, new, 0);
    }
}

// The kept cells of listed page number `at`: as many as its word has ones, the next one by trailing zeros.
fn slide_page(p: Sizes, cells: &mut [u32], tables: &[u32], list: &[u32], at: usize)
    requires room { Room p (length tables.now) }
    requires p_in_bounds { cells_words p ≤ length cells.old }
    requires listed { (at < length list.now) × MarksListed p (length list.now) list.now tables.now }
    requires named_from { NamedFrom p list.now tables.now (first_on (get_or list.now at 0)) cells.old }
    ensures { SlidHere p list.now tables.now (get_or list.now at 0) cells.old cells.new page_cells }
{
    let page = list[at] as usize;
    let mut left = layout::tables::mark(p, tables, page);
    for _ in 0..left.count_ones() {
        let i = left.trailing_zeros();
        slide_cell(cells, layout::cells::cell_on(page, i as usize));
        left = layout::bits::without_bit(left, i);
    }
}

// The kept cells of all listed pages.
pub fn slide_kept(p: Sizes, cells: &mut [u32], tables: &[u32], list: &[u32])
    requires room { Room p (length tables.now) }
    requires p_in_bounds { cells_words p ≤ length cells.old }
    requires marks_listed { MarksListed p (length list.now) list.now tables.now }
    requires named_from { NamedFrom p list.now tables.now 0 cells.old }
    ensures { Slid p list.now tables.now cells.old cells.new }
{
    for at in 0..list.len() {
        slide_page(p, cells, tables, list, at);
    }
}
