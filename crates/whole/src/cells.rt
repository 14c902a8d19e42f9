// Every cell in use has 01's form, its working word is zero, and its references are null or name an object. The same pass counts the
// slots that cross.
ghost use Rattle.std.specs.Prelude.{◌^◌, ◌<◌, ◌≤◌, length};
ghost use Rattle.lists.specs.Says.{Says};
ghost use Rattle.layout.specs.Places.{Room, cells_words};
ghost use Rattle.layout.specs.Cells.{CellIn};
ghost use Rattle.whole.specs.Pages.{PagesChecked};
ghost use Rattle.whole.specs.Cells.{ZeroFrom};
ghost use Rattle.whole.specs.Crossing.{CellsCross};

use crate::variables::is_ref;
use layout::Kind;
use remember::crossing::cross;
use rules::Sizes;

// Whether a cell's fields are zero, the first few left out.
pub fn zero_from(cells: &[u32], cell: usize, first: usize) -> bool
    requires { CellIn cell (length cells.now) }
    ensures { Says result (ZeroFrom cells.now cell first) }
{
    for f in first..layout::cells::FIELDS {
        if layout::cells::field(cells, cell, f) != 0 {
            return false;
        }
    }
    true
}

// Whether every cell in use is whole and as many slots cross as there are entries used, in one pass. A field that is a number may hold
// any word, so it is not read. The first slot too many ends it. Loops over pages, cells and fields that a label is left by are the project's form of
// a check that ends at the first word that breaks a condition.
pub fn cells_whole(p: Sizes, cells: &[u32], tables: &[u32], entries: usize) -> bool
    requires room { Room p (length tables.now) }
    requires p_in_bounds { cells_words p ≤ length cells.now }
    requires pages_checked { PagesChecked p tables.now }
    requires entries_bound { entries < 2 ^ 32 }
    ensures { Says result (CellsCross p cells.now tables.now entries) }
{
    'check: {
        let mut n: usize = 0;
        for page in 0..p.pages {
            let owner = layout::tables::owner(p, tables, page);
            let used = layout::tables::used(p, tables, page) as usize;
            for place in 0..used {
                let cell = layout::cells::cell_on(page, place);
                let head = layout::cells::head(cells, cell);
                let refs = layout::cells::field_count(Kind::Reference, head);
                let all = refs + layout::cells::field_count(Kind::Number, head);
                if layout::cells::FIELDS < all || layout::cells::work(cells, cell) != 0 {
                    break 'check false;
                }
                for f in 0..refs {
                    let x = layout::cells::field(cells, cell, f);
                    if !is_ref(p, cells, tables, x) {
                        break 'check false;
                    }
                    if 0 < cross(p, tables, owner, x) {
                        n += 1;
                        if entries < n {
                            break 'check false;
                        }
                    }
                }
                if !zero_from(cells, cell, all) {
                    break 'check false;
                }
            }
        }
        n == entries
    }
}
