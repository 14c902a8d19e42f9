// The entries that an end touches: those of slots on the ending region's pages, and those into the region. The others stay as they are.
ghost use Rattle.std.specs.Prelude.{◌<◌, ◌≤◌, length};
ghost use Rattle.lists.specs.Part.{Rises};
ghost use Rattle.layout.specs.Places.{entries_used, first_in};
ghost use Rattle.remember.specs.Table.{Table};
ghost use Rattle.settle.specs.Touched.{NotOwn};

use remember::entries::find_entry;
use rules::Sizes;

// The place of the first entry whose slot lies on a listed page, by halving once for each page; how many entries there are if none does,
// since what is touched then begins behind them.
pub fn first_own(p: Sizes, remember: &[u32], list: &[u32]) -> usize
    requires table { Table p.entries remember.now }
    requires rises { Rises p.pages (length list.now) list.now }
    requires entries_bound { (p.entries ≤ 4096) × (p.pages ≤ 1024) }
    ensures upper_bound { result ≤ entries_used remember.now }
    ensures not_own { NotOwn list.now (length list.now) result remember.now }
{
    let entries = p.entries;
    let used = layout::remember::used(remember) as usize;
    for page in list {
        let page = *page as usize;
        let from = layout::cells::WORDS * layout::cells::cell_on(page, 0);
        let i = find_entry(entries, remember, from as u32);
        if used <= i {
            return used;
        }
        let at = layout::remember::slot(entries, remember, i) as usize;
        if layout::cells::page_at(at) == page {
            return i;
        }
    }
    used
}

// The place of the first entry that is touched, of which `own` is the first that is of an own slot. A chain's word is 0 for no entry, else one
// more than the entry's place: so it stands in the words that a C caller sees.
pub fn first_touched(chains: &[u32], region: u32, own: usize) -> usize
    requires { (1 ≤ region) × (region ≤ length chains.now) }
    ensures upper_bound { result ≤ own }
    ensures upper_bound_2 { 0 < first_in chains.now region → result < first_in chains.now region }
{
    let x = layout::chains::first(chains, region as usize) as usize;
    if x == 0 || own < x { own } else { x - 1 }
}
