// Sizes are in range, N is the same in both places and the slices are long enough.
ghost use Rattle.lists.specs.Says.{Says};
ghost use Rattle.promises.specs.Whole.{Sized};
ghost use Rattle.layout.specs.Places.{sizes_at};
ghost use Rattle.layout.specs.Words.{words};

pub fn sizes_whole(cells: &[u32], remember: &[u32], tables: &[u32]) -> bool
    ensures { Says result (Sized (sizes_at tables.now) (words cells.now remember.now tables.now)) }
{
    if tables.len() < 5 || remember.len() < 2 {
        return false;
    }
    let s = layout::read_sizes(tables);
    if !layout::in_range(s) {
        return false;
    }
    layout::remember::entries(remember) as usize == s.entries
        && layout::lengths::cells_words(s) <= cells.len()
        && layout::lengths::remember_words(s) <= remember.len()
        && layout::lengths::tables_words(s) <= tables.len()
}
