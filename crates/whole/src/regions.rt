// Every page is whole, a region has at most one partly filled page, and object counts agree: one pass over the pages, then one over the
// regions.
ghost use Rattle.std.specs.Prelude.{length};
ghost use Rattle.lists.specs.Says.{Says};
ghost use Rattle.layout.specs.Places.{Room};
ghost use Rattle.whole.specs.Regions.{RegionsWhole};

use crate::pages::page_whole;
use rules::Sizes;

// There are at most 1 + 16 × 8 regions, numbered from 1.
pub fn regions_whole(p: Sizes, tables: &[u32]) -> bool
    requires { Room p (length tables.now) }
    ensures { Says result (RegionsWhole p tables.now) }
{
    let mut objects: [usize; 130] = [0; 130];
    let mut partly = [false; 130];
    for page in 0..p.pages {
        if !page_whole(p, tables, page) {
            return false;
        }
        let owner = layout::tables::owner(p, tables, page) as usize;
        if owner != 0 {
            let used = layout::tables::used(p, tables, page) as usize;
            if used < layout::cells::CELLS {
                if partly[owner] {
                    return false;
                }
                partly[owner] = true;
            }
            objects[owner] += used;
        }
    }
    let last = layout::regions::last_region(p);
    for g in 1..=last {
        if layout::tables::count(p, tables, g) as usize != objects[g] {
            return false;
        }
    }
    true
}
