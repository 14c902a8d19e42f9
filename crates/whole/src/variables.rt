// Every variable is null or names an object.
ghost use Rattle.std.specs.Prelude.{[], length};
ghost use Rattle.lists.specs.Says.{Says};
ghost use Rattle.layout.specs.Places.{Room};
ghost use Rattle.layout.specs.Words.{words};
ghost use Rattle.promises.specs.Whole.{IsRef, VariablesWhole};

use rules::Sizes;

// Whether x is null or names an object. One begins at each cell in use, so no cell is read.
pub fn is_ref(p: Sizes, cells: &[u32], tables: &[u32], x: u32) -> bool
    requires { Room p (length tables.now) }
    ensures { Says result (IsRef p cells.now tables.now x) }
{
    if x == 0 {
        return true;
    }
    let cell = layout::cells::cell_named(x);
    let page = layout::cells::page_of(cell);
    page < p.pages && layout::cells::place_of(cell) < layout::tables::used(p, tables, page) as usize
}

pub fn variables_whole(p: Sizes, cells: &[u32], tables: &[u32]) -> bool
    requires { Room p (length tables.now) }
    ensures { Says result (VariablesWhole p (words cells.now [] tables.now)) }
{
    for i in 0..layout::tables::var_count(p) {
        if !is_ref(p, cells, tables, layout::tables::var(p, tables, i)) {
            return false;
        }
    }
    true
}
