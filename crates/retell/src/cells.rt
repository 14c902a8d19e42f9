// The references of all cells in use go by the forward references in word 1 of the cells that they name.
ghost use Rattle.std.specs.Prelude.{◌+◌, ◌<◌};
ghost use Rattle.layout.specs.Places.{cells_words};
ghost use Rattle.layout.specs.Cells.{refs_of, head_at, cell_on};
ghost use Rattle.layout.specs.Objects.{Slot};
ghost use Rattle.settle.specs.Rewrite.{Rewritten};
ghost use Rattle.settle.specs.RewriteSlots.{Field};
ghost use Rattle.retell.specs.SlotStretches.{SlotFrom, Readable, CellReadable};

use layout::Kind;
use rules::Sizes;
use settle::rewrite::forward_ref;

// The reference fields of a cell: written, and told later, since cells still move (`settle_cell` does both).
fn rewrite_cell(cells: &mut [u32], cell: usize)
    requires { CellReadable cell cells.old }
    ensures { Rewritten (Field cell (refs_of cells.old cell)) cells.old cells.new }
{
    let n = layout::cells::field_count(Kind::Reference, layout::cells::head(cells, cell));
    for f in 0..n {
        let x = layout::cells::field(cells, cell, f);
        let y = forward_ref(cells, x);
        layout::cells::set_field(cells, cell, f, y);
    }
}

// Those of the cells in use of a page.
fn rewrite_page(p: Sizes, cells: &mut [u32], tables: &[u32], page: usize)
    requires readable { Readable p (head_at (cell_on page 0)) (head_at (cell_on (page + 1) 0)) cells.old tables.now }
    requires page_lt_pages { page < p.pages }
    ensures { Rewritten (SlotFrom p (head_at (cell_on page 0)) (head_at (cell_on (page + 1) 0)) cells.old tables.now) cells.old cells.new }
{
    let used = layout::tables::used(p, tables, page) as usize;
    for place in 0..used {
        rewrite_cell(cells, layout::cells::cell_on(page, place));
    }
}

// Those of all pages.
pub fn rewrite_cells(p: Sizes, cells: &mut [u32], tables: &[u32])
    requires { Readable p 0 (cells_words p) cells.old tables.now }
    ensures { Rewritten (Slot p cells.old tables.now) cells.old cells.new }
{
    for page in 0..p.pages {
        rewrite_page(p, cells, tables, page);
    }
}
