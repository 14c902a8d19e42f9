// Release: the cells of the ending region become zero, its pages free, its count 0, the depth of its thread one less, and the objects that are
// freed are counted.
#![tactic(auto)]

ghost use Rattle.std.specs.Prelude.{◌≡◌, ◌+◌, ◌<◌, ◌≤◌, length, slice_set};
ghost use Rattle.lists.specs.Part.{Lists, Rises};
ghost use Rattle.layout.specs.Places.{Room, cells_words, owner_of, depth_of, freed_at, freed_of};
ghost use Rattle.pages.specs.Noted.{note_words, Noted};
ghost use Rattle.rules.specs.Regions.{regions};
ghost use Rattle.rules.specs.Rules.{counted};
ghost use Rattle.promises.specs.Regular.{Regular};
ghost use Rattle.release.specs.Notes.{noted};
ghost use Rattle.release.specs.Release.{Released, Ended};
ghost use Rattle.release.specs.Emptied.{Emptied};

use rules::Sizes;

// The cells in use on the region's pages, which are those listed, become zero.
pub fn clear_pages(p: Sizes, cells: &mut [u32], tables: &[u32], list: &[u32], region: u32)
    requires room { Room p (length tables.now) }
    requires regular { Regular p tables.now }
    requires p_in_bounds { cells_words p ≤ length cells.old }
    requires lists { Lists (λ page. owner_of p tables.now page ≡ region) p.pages (length list.now) list.now }
    ensures { Emptied p region p.pages tables.now cells.old cells.new }
{
    for page in list {
        let page = *page as usize;
        let used = layout::tables::used(p, tables, page) as usize;
        layout::cells::clear_cells(cells, page, 0, used);
    }
}

// The region's pages, which are those listed, become free.
pub fn release_pages(p: Sizes, tables: &mut [u32], list: &[u32], region: u32)
    requires room { Room p (length tables.old) }
    requires lists { Lists (λ page. owner_of p tables.old page ≡ region) p.pages (length list.now) list.now }
    ensures { Released p region p.pages tables.old tables.new }
{
    for page in list {
        let page = *page as usize;
        layout::tables::set_owner(p, tables, page, 0);
        layout::tables::set_used(p, tables, page, 0);
        layout::tables::set_mark(p, tables, page, 0);
    }
}

// Note 0 counts no more pages than lie above the last of the listed ones, which may become free.
pub fn note_released(p: Sizes, notes: &mut [u32], list: &[u32])
    requires rises { Rises p.pages (length list.now) list.now }
    requires pages_bound { (p.pages ≤ 1024) × (note_words ≤ length notes.old) }
    ensures { notes.new ≡ noted p.pages notes.old list.now (length list.now) }
{
    if let Some(last) = list.last() {
        let above = p.pages - 1 - *last as usize;
        if above < notes[0] as usize {
            notes[0] = above as u32;
        }
    }
}

// So many objects more are freed.
pub fn count_freed(p: Sizes, tables: &mut [u32], n: u32)
    requires { Room p (length tables.old) }
    ensures { tables.new ≡ slice_set tables.old (freed_at p) (counted (freed_of p tables.old + n)) }
{
    let freed = layout::tables::freed(p, tables);
    layout::tables::set_freed(p, tables, freed.wrapping_add(n));
}

// The end of a thread's region, which frees so many objects: its cells, its pages, its count, the thread's depth, the counter.
pub fn release(
    p: Sizes,
    cells: &mut [u32],
    tables: &mut [u32],
    notes: &mut [u32],
    list: &[u32],
    region: u32,
    thread: usize,
    freed: u32,
)
    requires room { Room p (length tables.old) }
    requires regular { Regular p tables.old }
    requires p_in_bounds { cells_words p ≤ length cells.old }
    requires lists { Lists (λ page. owner_of p tables.old page ≡ region) p.pages (length list.now) list.now }
    requires le_region { (1 ≤ region) × (region ≤ regions p) }
    requires thread_lt_threads { (thread < p.threads) × (1 ≤ depth_of tables.old thread) }
    requires noted { Noted p tables.old notes.old }
    ensures ended { Ended p region thread freed tables.old tables.new }
    ensures emptied { Emptied p region p.pages tables.old cells.old cells.new }
    ensures noted_2 { Noted p tables.new notes.new }
{
    clear_pages(p, cells, tables, list, region);
    release_pages(p, tables, list, region);
    note_released(p, notes, list);
    layout::tables::set_count(p, tables, region as usize, 0);
    let depth = layout::tables::depth(p, tables, thread);
    layout::tables::set_depth(p, tables, thread, depth - 1);
    count_freed(p, tables, freed);
}
