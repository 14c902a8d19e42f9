// The report (01; 02, W2): a row for the control space and each open region, by region number, then free pages and crossing slots, then
// objects made, objects freed and the total of live objects. It reads the tables and changes none of them.
#![tactic(auto)]

ghost use Rattle.std.specs.Prelude.{◌≡◌, ◌+◌, ◌<◌, ◌≤◌, length, slice_index_or};
ghost use Rattle.layout.specs.Places.{entries_used, made_of, freed_of};
ghost use Rattle.layout.specs.Words.{depths_at};
ghost use Rattle.report.specs.Report.{row_of, no_row, total_of};
ghost use Rattle.report.specs.Opened.{Next, Turn};
ghost use Rattle.report.specs.Tables.{WholeTables, row_in, rows_in, free_in};
ghost use Rattle.rules.specs.Regions.{regions};

use rules::Sizes;

pub mod lent;

// A region's row; the control space has thread 0 and level 0.
#[repr(C)]
#[derive(Clone, Copy)]
pub struct Row {
    pub thread: u32,
    pub level: u32,
    pub objects: u32,
    pub pages: u32,
}

// 0 if the rows were written, else the number of the question that said no; how many rows were written; and the figures.
#[repr(C)]
#[derive(Clone, Copy)]
pub struct Reported {
    pub number: u32,
    pub rows: u32,
    pub free_pages: u32,
    pub crossing_slots: u32,
    pub made: u32,
    pub freed: u32,
    pub total: u32,
}

// A row with the pages that so many objects use.
fn row_with(thread: u32, level: u32, objects: u32) -> Row
    ensures { result ≡ row_of thread level objects }
{
    let pages = layout::cells::pages_for(objects as usize) as u32;
    Row {
        thread,
        level,
        objects,
        pages,
    }
}

// The row of a region.
pub fn row_of(p: Sizes, tables: &[u32], region: usize) -> Row
    requires whole_tables { WholeTables p tables.now }
    requires le_region { (1 ≤ region) × (region ≤ regions p) }
    ensures { result ≡ row_in p tables.now region }
{
    let objects = layout::tables::count(p, tables, region);
    if region == 1 {
        return row_with(0, 0, objects);
    }
    let thread = layout::regions::thread_of(p, region) as u32;
    let level = layout::regions::level_of(p, region) as u32;
    row_with(thread, level, objects)
}

// The next open region by number; one past the last region if there is none, which is no Option since the turns of the rows (Turn) end there too.
pub fn next_open(p: Sizes, tables: &[u32], region: usize) -> usize
    requires whole_tables { WholeTables p tables.now }
    requires le_region { (1 ≤ region) × (region ≤ regions p) }
    ensures { Next p (depths_at p tables.now) region result }
{
    let last = layout::regions::region_at(p, p.threads - 1, p.depth) as usize;
    for next in region + 1..=last {
        if whole::pages::is_open(p, tables, next) {
            return next;
        }
    }
    last + 1
}

// How many rows there are: one for the control space, and one for each open region.
pub fn row_count(p: Sizes, tables: &[u32]) -> usize
    requires { WholeTables p tables.now }
    ensures { result ≡ length (rows_in p tables.now) }
{
    let mut n: usize = 1;
    for thread in 0..p.threads {
        n += layout::tables::depth(p, tables, thread) as usize;
    }
    n
}

// Open region k by number, the control space being 0: level k, less the open levels of the threads that are passed.
fn open_region(p: Sizes, tables: &[u32], k: usize) -> usize
    requires whole_tables { WholeTables p tables.now }
    requires k_in_bounds { k < length (rows_in p tables.now) }
    ensures { Turn p (depths_at p tables.now) k result }
{
    if k == 0 {
        return 1;
    }
    let mut level = k;
    let mut thread: usize = 0;
    let mut deep = layout::tables::depth(p, tables, 0) as usize;
    while deep < level {
        level -= deep;
        thread += 1;
        deep = layout::tables::depth(p, tables, thread) as usize;
    }
    layout::regions::region_at(p, thread, level) as usize
}

// Row k, by region number.
pub fn row_at(p: Sizes, tables: &[u32], k: usize) -> Row
    requires whole_tables { WholeTables p tables.now }
    requires k_in_bounds { k < length (rows_in p tables.now) }
    ensures { result ≡ slice_index_or (rows_in p tables.now) k no_row }
{
    row_of(p, tables, open_region(p, tables, k))
}

// How many pages are free.
pub fn free_pages(p: Sizes, tables: &[u32]) -> u32
    requires { WholeTables p tables.now }
    ensures { result ≡ free_in p tables.now }
{
    pages::owned_pages(p, tables, 0) as u32
}

// How many slots are crossing: the remember table names each once.
pub fn crossing_slots(remember: &[u32]) -> u32
    requires { 2 ≤ length remember.now }
    ensures { result ≡ entries_used remember.now }
{
    layout::remember::used(remember)
}

// How many objects were made since prepare, modulo 4,294,967,296, and how many freed.
pub fn made(p: Sizes, tables: &[u32]) -> u32
    requires { WholeTables p tables.now }
    ensures { result ≡ made_of p tables.now }
{
    layout::tables::made(p, tables)
}

pub fn freed(p: Sizes, tables: &[u32]) -> u32
    requires { WholeTables p tables.now }
    ensures { result ≡ freed_of p tables.now }
{
    layout::tables::freed(p, tables)
}

// How many objects all rows have: those made less those freed.
pub fn total(p: Sizes, tables: &[u32]) -> u32
    requires { WholeTables p tables.now }
    ensures { result ≡ total_of (rows_in p tables.now) }
{
    let all = made(p, tables);
    let gone = freed(p, tables);
    std::num::wrapping_sub_u32(all, gone)
}
