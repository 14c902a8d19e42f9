// The listed pages are trimmed to the kept cells, which lie at their first places: what lies behind becomes zero, and a page without a cell
// becomes free.
ghost use Rattle.std.specs.Prelude.{ℕ, ◌<◌, ◌≤◌, length, get_or};
ghost use Rattle.lists.specs.Part.{Rises};
ghost use Rattle.layout.specs.Cells.{head_at, cell_on, page_cells};
ghost use Rattle.layout.specs.Places.{Room, cells_words, used_of};
ghost use Rattle.slide.specs.Trimmed.{CellsCleared, PageWords, Trimmed};

use rules::Sizes;

// The cells of a page from one place up to another become zero, if there are any.
fn trim_cells(cells: &mut [u32], page: usize, from: usize, to: usize)
    requires { (page < 1024) × (to ≤ page_cells) × (head_at (cell_on page to) ≤ length cells.old) }
    ensures { CellsCleared page from to cells.old cells.new }
{
    if from < to {
        layout::cells::clear_cells(cells, page, from, to);
    }
}

// The words of a page that holds so many cells and has no marks.
fn trim_words(p: Sizes, tables: &mut [u32], page: usize, left: u32)
    requires room { Room p (length tables.old) }
    requires page_lt_pages { page < p.pages }
    ensures { PageWords p page left tables.old tables.new }
{
    layout::tables::set_used(p, tables, page, left);
    layout::tables::set_mark(p, tables, page, 0);
    if left == 0 {
        layout::tables::set_owner(p, tables, page, 0);
    }
}

// The listed pages hold so many kept cells.
pub fn trim_pages(p: Sizes, cells: &mut [u32], tables: &mut [u32], list: &[u32], kept: usize)
    requires room { Room p (length tables.old) }
    requires p_in_bounds { cells_words p ≤ length cells.old }
    requires rises { Rises p.pages (length list.now) list.now }
    requires by_index { (j : ℕ) → j < length list.now → used_of p tables.old (get_or list.now j 0) ≤ page_cells }
    ensures { Trimmed p list.now (length list.now) kept cells.old tables.old cells.new tables.new }
{
    let mut rest = kept;
    for page in list {
        let page = *page as usize;
        let left = rest.min(layout::cells::CELLS);
        let used = layout::tables::used(p, tables, page) as usize;
        trim_cells(cells, page, left, used);
        trim_words(p, tables, page, left as u32);
        rest -= left;
    }
}
