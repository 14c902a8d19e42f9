// One pass over all slots, in rising position: page by page, the cells in use of each, the references of each. With it references go by the
// forward references wherever they stand (cells), and the remember table is told anew.
#![tactic(auto)]

pub mod cells;

ghost use Rattle.std.specs.Prelude.{◌+◌, ◌<◌, ◌≤◌, length};
ghost use Rattle.layout.specs.Places.{cells_words, entries_words, entries_used};
ghost use Rattle.layout.specs.Cells.{head_at, cell_on};
ghost use Rattle.layout.specs.Objects.{Begins};
ghost use Rattle.remember.specs.Crossing.{cross_to};
ghost use Rattle.remember.specs.Entries.{RestZero, Exact, Edited};
ghost use Rattle.remember.specs.Appending.{AtMost};
ghost use Rattle.retell.specs.SlotStretches.{Readable};
ghost use Rattle.retell.specs.RetellingSlots.{SlotsTold, SlotsTelling, IsCrossing};

use layout::Kind;
use remember::crossing::cross;
use remember::entries::{close_entries, put_entry};
use rules::Sizes;

// The crossing slots of the object at a cell come after the first j entries; how many there are then.
// Three functions go over the references of a cell: this one writes the table, rewrite_cell the cells, settle_cell of the crate `settle` both, and
// a reference as it reads then. One function for all would take the kind of pass as an argument and test it at each field, which is no plainer.
fn tell_cell(
    p: Sizes,
    cells: &[u32],
    remember: &mut [u32],
    tables: &[u32],
    cell: usize,
    j: usize,
) -> usize
    requires begins { Begins p cells.now tables.now cell }
    requires slots_telling { SlotsTelling p (head_at cell) (head_at (cell + 1)) cells.now remember.old tables.now j }
    ensures { SlotsTold p (head_at cell) (head_at (cell + 1)) cells.now remember.old tables.now j remember.new result }
{
    let n = layout::cells::field_count(Kind::Reference, layout::cells::head(cells, cell));
    let from = layout::tables::owner(p, tables, layout::cells::page_of(cell));
    let mut i = j;
    for f in 0..n {
        let to = cross(p, tables, from, layout::cells::field(cells, cell, f));
        if to != 0 {
            put_entry(
                p.entries,
                remember,
                i,
                layout::cells::field_at(cell, f) as u32,
                to,
            );
            i += 1;
        }
    }
    i
}

// Those of the objects on a page.
fn tell_page(
    p: Sizes,
    cells: &[u32],
    remember: &mut [u32],
    tables: &[u32],
    page: usize,
    j: usize,
) -> usize
    requires page_lt_pages { page < p.pages }
    requires slots_telling { SlotsTelling p (head_at (cell_on page 0)) (head_at (cell_on (page + 1) 0)) cells.now remember.old tables.now j }
    ensures { SlotsTold p (head_at (cell_on page 0)) (head_at (cell_on (page + 1) 0)) cells.now remember.old tables.now j remember.new result }
{
    let used = layout::tables::used(p, tables, page) as usize;
    let mut i = j;
    for place in 0..used {
        i = tell_cell(
            p,
            cells,
            remember,
            tables,
            layout::cells::cell_on(page, place),
            i,
        );
    }
    i
}

// Those of all pages, from the first entry on.
fn tell_pages(p: Sizes, cells: &[u32], remember: &mut [u32], tables: &[u32]) -> usize
    requires { SlotsTelling p 0 (cells_words p) cells.now remember.old tables.now 0 }
    ensures { SlotsTold p 0 (cells_words p) cells.now remember.old tables.now 0 remember.new result }
{
    let mut i = 0;
    for page in 0..p.pages {
        i = tell_page(p, cells, remember, tables, page, i);
    }
    i
}

// The remember table anew, from the cells: the entries of all crossing slots, then zeros.
pub fn retell(p: Sizes, cells: &[u32], remember: &mut [u32], tables: &[u32])
    requires readable { Readable p 0 (cells_words p) cells.now tables.now }
    requires entries_in_bounds { entries_words p.entries ≤ length remember.old }
    requires remember_bound { (entries_used remember.old ≤ p.entries) × RestZero p.entries remember.old }
    requires at_most { AtMost (IsCrossing p cells.now tables.now) p.entries }
    ensures exact { Exact (cross_to p cells.now tables.now) (cells_words p) p.entries remember.new }
    ensures edited { Edited p.entries remember.old remember.new }
{
    let used = layout::remember::used(remember) as usize;
    let all = tell_pages(p, cells, remember, tables);
    close_entries(p.entries, remember, all, used);
}
