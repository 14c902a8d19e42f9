// Depths are at most D. A used page belongs to the control space or an open region and uses its first 1 to 16 cells, a free page uses
// none, and the working word of a page is zero.
ghost use Rattle.std.specs.Prelude.{◌<◌, length};
ghost use Rattle.lists.specs.Says.{Says};
ghost use Rattle.layout.specs.Places.{Room};
ghost use Rattle.promises.specs.Whole.{Open, DepthsWhole};
ghost use Rattle.layout.specs.Words.{tables_only};
ghost use Rattle.whole.specs.Pages.{PageChecked};

use rules::Sizes;

// A `for`, and not `all` over the threads: as in `entries`.
pub fn depths_whole(p: Sizes, tables: &[u32]) -> bool
    requires { Room p (length tables.now) }
    ensures { Says result (DepthsWhole p (tables_only tables.now)) }
{
    for k in 0..p.threads {
        if p.depth < layout::tables::depth(p, tables, k) as usize {
            return false;
        }
    }
    true
}

// Whether region g is an open region of a thread.
pub fn is_open(p: Sizes, tables: &[u32], g: usize) -> bool
    requires { Room p (length tables.now) }
    ensures { Says result (Open p tables.now g) }
{
    if g < 2 {
        return false;
    }
    let thread = layout::regions::thread_of(p, g);
    thread < p.threads
        && layout::regions::level_of(p, g) <= layout::tables::depth(p, tables, thread) as usize
}

pub fn page_whole(p: Sizes, tables: &[u32], page: usize) -> bool
    requires room { Room p (length tables.now) }
    requires page_lt_pages { page < p.pages }
    ensures { Says result (PageChecked p tables.now page) }
{
    if layout::tables::mark(p, tables, page) != 0 {
        return false;
    }
    let owner = layout::tables::owner(p, tables, page) as usize;
    let used = layout::tables::used(p, tables, page) as usize;
    if owner == 0 {
        return used == 0;
    }
    1 <= used && used <= layout::cells::CELLS && (owner == 1 || is_open(p, tables, owner))
}
