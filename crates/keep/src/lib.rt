// What a collection of the control space keeps (02, W5): every object of region 1 that a holder leads to by a chain of slots inside
// region 1. Holders are all variables and all slots of objects in other regions. By the rules this is the end of region 1 into itself, so
// what is kept is marked as the survivors of an end are.
#![tactic(auto)]

ghost use Rattle.std.specs.Prelude.{◌≡◌, List, ℕ, ◌<◌, ◌≤◌, length};
ghost use Rattle.layout.specs.Places.{Room, used_of, cells_words, page_words};
ghost use Rattle.layout.specs.Cells.{page_cells};
ghost use Rattle.layout.specs.Words.{words};
ghost use Rattle.promises.specs.Whole.{WholeFor};
ghost use Rattle.promises.specs.Ends.{part_of};
ghost use Rattle.mark.specs.Marks.{Shaped};
ghost use Rattle.mark.specs.Pushes.{Pushing};
ghost use Rattle.mark.specs.Survivors.{Marked};
ghost use Rattle.keep.specs.Others.{other_cells, other_held, page_held};

use rules::Sizes;

// How many cells of a page are in use by another region than the control space.
fn other_cells(p: Sizes, tables: &[u32], page: usize) -> usize
    requires room { Room p (length tables.now) }
    requires page_lt_pages { page < p.pages }
    ensures { result ≡ other_cells p tables.now page }
{
    if 1 < layout::tables::owner(p, tables, page) {
        return layout::tables::used(p, tables, page) as usize;
    }
    0
}

// Pushes what the slots of the page hold, unless it is the control space's.
fn push_page(p: Sizes, cells: &mut [u32], tables: &mut [u32], page: usize, top: u32) -> u32
    requires shaped { Shaped p cells.old tables.old }
    requires page_lt_pages { (page < p.pages) × (used_of p tables.old page ≤ page_cells) }
    ensures { Pushing p 1 (page_held p cells.old tables.old page) cells.old tables.old top cells.new tables.new result page_words }
{
    let n = other_cells(p, tables, page);
    let mut t = top;
    for place in 0..n {
        t = mark::push::scan(p, cells, tables, 1, layout::cells::cell_on(page, place), t);
    }
    t
}

// Pushes what the slots of objects in other regions hold, page by page.
fn push_others(p: Sizes, cells: &mut [u32], tables: &mut [u32], top: u32) -> u32
    requires shaped { Shaped p cells.old tables.old }
    requires by_index { (page : ℕ) → page < p.pages → used_of p tables.old page ≤ page_cells }
    ensures { Pushing p 1 (other_held p cells.old tables.old) cells.old tables.old top cells.new tables.new result (cells_words p) }
{
    let mut t = top;
    for page in 0..p.pages {
        t = push_page(p, cells, tables, page, t);
    }
    t
}

// Marks what a collection of the control space keeps. At an end of region 1 a variable calls for region 1, whatever its thread.
pub fn mark_kept(p: Sizes, cells: &mut [u32], tables: &mut [u32])
    requires { (m : List ℕ) × WholeFor p (words cells.old m tables.old) }
    ensures { (m : List ℕ) → WholeFor p (words cells.old m tables.old) → Marked p (words cells.old m tables.old) (part_of p (words cells.old m tables.old) 1) (words cells.new m tables.new) }
{
    let held = mark::holders::push_variables(p, cells, tables, 1, 0, 1, 1, 0);
    let top = push_others(p, cells, tables, held);
    mark::drain::drain(p, cells, tables, 1, 1, top);
}
