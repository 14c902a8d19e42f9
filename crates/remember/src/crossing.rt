// The region that a slot crosses into: of a reference, of a reference in a slot of some region, and of whatever word stands at a position.
// None is 0, as in 01 and in the definitions, and no Option: the answer is compared with the region that an entry holds, or stored there.
ghost use Rattle.std.specs.Prelude.{◌≡◌, ◌≤◌, ◌<◌, length};
ghost use Rattle.layout.specs.Places.{Room, cells_words};
ghost use Rattle.layout.specs.Words.{Names};
ghost use Rattle.remember.specs.Crossing.{other, region_of, crosses_from, cross_to};

use rules::Sizes;

// The region that a reference points into, 0 for null; it names a cell of the heap's pages.
pub fn region_named(p: Sizes, tables: &[u32], x: u32) -> u32
    requires names { Names p x }
    requires room { Room p (length tables.now) }
    ensures { result ≡ region_of p tables.now x }
{
    if x == 0 {
        return 0;
    }
    layout::tables::owner(
        p,
        tables,
        layout::cells::page_of(layout::cells::cell_named(x)),
    )
}

// The same of any word, 0 for a page that is not there.
pub fn region_of(p: Sizes, tables: &[u32], x: u32) -> u32
    requires { Room p (length tables.now) }
    ensures { result ≡ region_of p tables.now x }
{
    if x == 0 {
        return 0;
    }
    if p.pages <= layout::cells::page_of(layout::cells::cell_named(x)) {
        return 0;
    }
    region_named(p, tables, x)
}

// The region `to`, where it is another than `from` and not the control space, else 0.
pub fn other_region(from: u32, to: u32) -> u32
    ensures { result ≡ other from to }
{
    if to <= 1 {
        return 0;
    }
    if to == from {
        return 0;
    }
    to
}

// The region that a reference crosses into from a slot of an object in region `from`, 0 where it does not cross.
pub fn cross(p: Sizes, tables: &[u32], from: u32, x: u32) -> u32
    requires names { Names p x }
    requires room { Room p (length tables.now) }
    ensures { result ≡ crosses_from p tables.now from x }
{
    other_region(from, region_named(p, tables, x))
}

// The region that the slot at a position crosses into, 0 where no crossing slot stands there.
pub fn cross_to(p: Sizes, cells: &[u32], tables: &[u32], at: usize) -> u32
    requires room { Room p (length tables.now) }
    requires p_in_bounds { cells_words p ≤ length cells.now }
    requires at_bound { at < cells_words p }
    ensures { result ≡ cross_to p cells.now tables.now at }
{
    let cell = layout::cells::cell_of(at);
    let page = layout::cells::page_of(cell);
    let used = layout::tables::used(p, tables, page) as usize;
    if used <= layout::cells::place_of(cell) {
        return 0;
    }
    let head = layout::cells::head(cells, cell);
    if !layout::cells::is_reference(head, layout::cells::word_of(at)) {
        return 0;
    }
    let owner = layout::tables::owner(p, tables, page);
    other_region(owner, region_of(p, tables, cells[at]))
}
