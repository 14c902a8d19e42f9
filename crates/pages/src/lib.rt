// The pages of a region, and the cell that an object gets: the first unused cell of its region's partly filled page, else the first cell
// of the highest-numbered free page (02, W3).
#![tactic(auto)]

ghost use Rattle.std.specs.Prelude.{◌≡◌, ◌+◌, ◌^◌, ◌<◌, ◌≤◌, length, unwrap_or, IfSome};
ghost use Rattle.lists.specs.Says.{Says};
ghost use Rattle.lists.specs.Part.{Lists};
ghost use Rattle.rules.specs.Regions.{regions};
ghost use Rattle.rules.specs.Graph.{pages_of};
ghost use Rattle.layout.specs.Places.{Room, owner_of, used_of, count_of};
ghost use Rattle.layout.specs.Cells.{cell_on, page_cells};
ghost use Rattle.promises.specs.OwnedPages.{owned_in};
ghost use Rattle.pages.specs.Owned.{Paged};
ghost use Rattle.pages.specs.Pages.{page_or, fills_pages, Filled, Found, Free, Partly, taken};
ghost use Rattle.pages.specs.Noted.{Above, Noted};

use rules::Sizes;

// How many pages belong to region g; those of 0 are free.
pub fn owned_pages(p: Sizes, tables: &[u32], g: u32) -> usize
    requires { Room p (length tables.now) }
    ensures { result ≡ owned_in p tables.now g p.pages }
{
    let mut n = 0;
    for page in 0..p.pages {
        if layout::tables::owner(p, tables, page) == g {
            n += 1;
        }
    }
    n
}

// How many pages are free: all less those that the regions' objects fill.
pub fn free_pages(p: Sizes, tables: &[u32]) -> usize
    requires room { Room p (length tables.now) }
    requires paged { Paged p tables.now }
    ensures { result ≡ owned_in p tables.now 0 p.pages }
{
    let mut free = p.pages;
    for g in 1..=layout::regions::last_region(p) {
        free -= layout::cells::pages_for(layout::tables::count(p, tables, g) as usize);
    }
    free
}

// The pages of a region in rising number, at the start of the list; how many they are, which the count of its objects tells. The search goes down
// from the last page and ends at the region's first.
pub fn list_pages(p: Sizes, tables: &[u32], region: u32, list: &mut [u32]) -> usize
    requires room { Room p (length tables.now) }
    requires le_region { (1 ≤ region) × (region ≤ regions p) }
    requires pages_value { owned_in p tables.now region p.pages ≡ pages_of (count_of p tables.now region) }
    requires pages_in_bounds { p.pages ≤ length list.old }
    ensures { Lists (λ page. owner_of p tables.now page ≡ region) p.pages result list.new }
{
    let objects = layout::tables::count(p, tables, region as usize);
    let n = layout::cells::pages_for(objects as usize);
    let mut left = n;
    for page in (0..p.pages).rev() {
        if left == 0 {
            break;
        }
        if layout::tables::owner(p, tables, page) == region {
            left -= 1;
            list[left] = page as u32;
        }
    }
    n
}

// Whether so many objects leave no cell of their region's pages unused.
fn fills_pages(objects: u32) -> bool
    ensures { result ≡ fills_pages objects }
{
    objects % layout::cells::CELLS as u32 == 0
}

// Whether a page is the region's and has an unused cell.
fn is_partly(p: Sizes, tables: &[u32], region: u32, page: usize) -> bool
    requires { Room p (length tables.now) }
    ensures { Says result (Partly p tables.now region page) }
{
    page < p.pages
        && layout::tables::owner(p, tables, page) == region
        && layout::tables::used(p, tables, page) < layout::cells::CELLS as u32
}

// The highest-numbered free page below `high`. A `for`: by `find` over the range, `free` stayed open.
fn free_below(p: Sizes, tables: &[u32], high: usize) -> Option<usize>
    requires room { Room p (length tables.now) }
    requires high_le_pages { high ≤ p.pages }
    ensures free { Free p tables.now high (page_or p result) }
    ensures page { IfSome result (λ page. page < p.pages) }
{
    for page in (0..high).rev() {
        if layout::tables::owner(p, tables, page) == 0 {
            return Some(page);
        }
    }
    None
}

// How many of so many pages lie above a page; all of them, if there is none.
fn pages_above(pages: usize, page: Option<usize>) -> usize
    requires { IfSome page (λ page. page < pages) }
    ensures { Above pages (unwrap_or page pages) result }
{
    match page {
        Some(page) => pages - 1 - page,
        None => pages,
    }
}

// The highest-numbered free page. The search begins below the pages that note 0 counts, none of which is free, and note 0 becomes the pages above
// the one that is found. The notes are kept for the length of a block.
pub fn free_page(p: Sizes, tables: &[u32], notes: &mut [u32]) -> Option<usize>
    requires room { Room p (length tables.now) }
    requires noted { Noted p tables.now notes.old }
    ensures free { Free p tables.now p.pages (page_or p result) }
    ensures page { IfSome result (λ page. page < p.pages) }
    ensures noted_2 { Noted p tables.now notes.new }
{
    let passed = p.pages.min(notes[0] as usize);
    let page = free_below(p, tables, p.pages - passed);
    notes[0] = pages_above(p.pages, page) as u32;
    page
}

// The partly filled page of a region; if it has none the highest-numbered free page.
fn find_page(p: Sizes, tables: &[u32], region: u32) -> Option<usize>
    requires { Room p (length tables.now) }
    ensures found { Found p tables.now region (page_or p result) }
    ensures page { IfSome result (λ page. page < p.pages) }
{
    let mut last = None;
    for page in 0..p.pages {
        let owner = layout::tables::owner(p, tables, page);
        if owner == region && layout::tables::used(p, tables, page) < layout::cells::CELLS as u32 {
            return Some(page);
        }
        if owner == 0 {
            last = Some(page);
        }
    }
    last
}

// The same page. Where the region's objects fill their pages it has no partly filled one, and the highest-numbered free page is all there is to look for.
fn search_page(p: Sizes, tables: &[u32], notes: &mut [u32], region: u32) -> Option<usize>
    requires room { Room p (length tables.now) }
    requires noted { Noted p tables.now notes.old }
    requires le_region { (1 ≤ region) × (region ≤ regions p) × Filled p tables.now region }
    ensures found { Found p tables.now region (page_or p result) }
    ensures page { IfSome result (λ page. page < p.pages) }
    ensures noted_2 { Noted p tables.now notes.new }
{
    if fills_pages(layout::tables::count(p, tables, region as usize)) {
        free_page(p, tables, notes)
    } else {
        find_page(p, tables, region)
    }
}

// The same page, found without a search where the region's note names it: the page that its last object went to.
pub fn page_for(p: Sizes, tables: &[u32], notes: &mut [u32], region: u32) -> Option<usize>
    requires room { Room p (length tables.now) }
    requires noted { Noted p tables.now notes.old }
    requires le_region { (1 ≤ region) × (region ≤ regions p) × Filled p tables.now region }
    ensures found { Found p tables.now region (page_or p result) }
    ensures page { IfSome result (λ page. page < p.pages) }
    ensures noted_2 { Noted p tables.now notes.new }
{
    let number = region as usize;
    let noted = notes[number] as usize;
    if is_partly(p, tables, region, noted) {
        return Some(noted);
    }
    let found = search_page(p, tables, notes, region);
    if let Some(page) = found {
        notes[number] = page as u32;
    }
    found
}

// The first unused cell of a page becomes an object of the region: the page's owner, its cells in use and the region's objects follow.
pub fn take_cell(p: Sizes, tables: &mut [u32], page: usize, region: u32) -> usize
    requires room { Room p (length tables.old) }
    requires page_lt_pages { (page < p.pages) × (used_of p tables.old page < page_cells) }
    requires le_region { (1 ≤ region) × (region ≤ regions p) × (count_of p tables.old region + 1 < 2 ^ 32) }
    ensures { (result ≡ cell_on page (used_of p tables.old page)) × (tables.new ≡ taken p tables.old page region) }
{
    let place = layout::tables::used(p, tables, page);
    let number = region as usize;
    let objects = layout::tables::count(p, tables, number);
    layout::tables::set_owner(p, tables, page, region);
    layout::tables::set_used(p, tables, page, place + 1);
    layout::tables::set_count(p, tables, number, objects + 1);
    layout::cells::cell_on(page, place as usize)
}
