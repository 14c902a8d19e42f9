// Every cell that is not in use holds zero words alone (02, W1): on a free page all, on another those past its cells in use.
ghost use Rattle.std.specs.Prelude.{◌<◌, ◌≤◌, [], length};
ghost use Rattle.lists.specs.Says.{Says};
ghost use Rattle.layout.specs.Places.{Room, cells_words};
ghost use Rattle.layout.specs.Words.{words};
ghost use Rattle.layout.specs.Cells.{CellIn, head_at, cell_on, page_cells};
ghost use Rattle.promises.specs.Whole.{UnusedWhole};
ghost use Rattle.whole.specs.ZeroCells.{ZeroCell, ZeroCells};

use rules::Sizes;

// Whether a cell holds zero words alone: they are joined by "or" and tested once.
pub fn zero_cell(cells: &[u32], cell: usize) -> bool
    requires { CellIn cell (length cells.now) }
    ensures { Says result (ZeroCell cells.now cell) }
{
    let mut x: u32 = 0;
    for i in 0..layout::cells::WORDS {
        x |= layout::cells::word(cells, cell, i);
    }
    x == 0
}

// Whether the cells of a page from a place on hold zero words alone. The first that does not ends it.
pub fn zero_cells(cells: &[u32], page: usize, first: usize) -> bool
    requires { (page < 1024) × (head_at (cell_on page page_cells) ≤ length cells.now) }
    ensures { Says result (ZeroCells cells.now page first) }
{
    for place in first..layout::cells::CELLS {
        if !zero_cell(cells, layout::cells::cell_on(page, place)) {
            return false;
        }
    }
    true
}

// A pass of its own, so that the one over the objects keeps what it needs in registers.
pub fn unused_whole(p: Sizes, cells: &[u32], tables: &[u32]) -> bool
    requires room { Room p (length tables.now) }
    requires p_in_bounds { cells_words p ≤ length cells.now }
    ensures { Says result (UnusedWhole p (words cells.now [] tables.now)) }
{
    for page in 0..p.pages {
        let used = layout::tables::used(p, tables, page) as usize;
        if !zero_cells(cells, page, used) {
            return false;
        }
    }
    true
}
