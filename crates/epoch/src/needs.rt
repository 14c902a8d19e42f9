// Questions 13 and 14: the new pages that the regions around the ending one need, against the free pages; the slots that would cross, against
// the entries.
ghost use Rattle.std.specs.Prelude.{◌≡◌, ◌^◌, ◌<◌, ◌≤◌, length, get_or};
ghost use Rattle.lists.specs.Part.{Lists};
ghost use Rattle.rules.specs.Refusals.{asked};
ghost use Rattle.rules.specs.Regions.{region_at, regions};
ghost use Rattle.layout.specs.Places.{Room, owner_of};
ghost use Rattle.chains.specs.Chains.{ChainsWhole};
ghost use Rattle.promises.specs.Arriving.{region_more, more_below};
ghost use Rattle.pages.specs.Owned.{Paged};
ghost use Rattle.mark.specs.Marks.{Shaped};
ghost use Rattle.mark.specs.Holders.{Holding};
ghost use Rattle.census.specs.Census.{Census};
ghost use Rattle.census.specs.Going.{OthersStay};
ghost use Rattle.ending.specs.RoomAsked.{room_asked};

use evacuate::Epoch;
use rules::{Refusal, Sizes};

// How many new pages region g needs for the survivors that go to it, which `come` counts: none where none goes.
pub fn new_pages(p: Sizes, tables: &[u32], come: &[u32], g: u32) -> usize
    requires room { Room p (length tables.now) }
    requires le_g { (1 ≤ g) × (g ≤ regions p) × (regions p < length come.now) }
    ensures value { result ≡ region_more p tables.now (λ h. get_or come.now h 0) g }
    ensures upper_bound { result ≤ 2 ^ 28 }
{
    let region = g as usize;
    let arrivals = come[region] as usize;
    if arrivals == 0 {
        return 0;
    }
    let have = layout::tables::count(p, tables, region) as usize;
    layout::cells::pages_for(have + arrivals) - layout::cells::pages_for(have)
}

// How many new pages the regions of a thread at the levels below the given one need.
pub fn needed_pages(p: Sizes, tables: &[u32], come: &[u32], thread: usize, levels: usize) -> usize
    requires room { Room p (length tables.now) }
    requires p_in_bounds { regions p < length come.now }
    requires thread_lt_threads { (thread < p.threads) × (levels ≤ p.depth) }
    ensures { result ≡ more_below p tables.now (λ g. get_or come.now g 0) (region_at p thread) levels }
{
    let mut n: usize = 0;
    for level in 0..levels {
        n += new_pages(
            p,
            tables,
            come,
            layout::regions::region_at(p, thread, level),
        );
    }
    n
}

// Questions 13 and 14 at the end of an epoch whose survivors are marked and whose pages are listed; k is how many of the survivors' slots would cross.
pub fn ask_room(
    p: Sizes,
    cells: &[u32],
    remember: &[u32],
    tables: &[u32],
    chains: &[u32],
    list: &[u32],
    come: &[u32],
    epoch: Epoch,
    k: usize,
) -> Result<(), Refusal>
    requires shaped { Shaped p cells.now tables.now }
    requires holding { Holding p cells.now remember.now tables.now }
    requires others_stay { OthersStay p cells.now tables.now epoch.region }
    requires chains_whole { ChainsWhole p remember.now chains.now }
    requires lists { Lists (λ page. owner_of p tables.now page ≡ epoch.region) p.pages (length list.now) list.now }
    requires le_region { (1 ≤ epoch.region) × (epoch.region ≤ regions p) }
    requires paged { Paged p tables.now }
    requires census { Census p cells.now tables.now p.pages come.now k }
    requires p_in_bounds { regions p < length come.now }
    requires thread_lt_threads { (epoch.thread < p.threads) × (epoch.level ≤ p.depth) }
    ensures { asked result ≡ room_asked p cells.now remember.now tables.now epoch.thread epoch.level epoch.region }
{
    let Epoch {
        thread,
        level,
        region,
    } = epoch;
    let needed = needed_pages(p, tables, come, thread, level);
    let free = pages::free_pages(p, tables);
    if free < needed {
        return Err(Refusal::Pages);
    }
    let crossing = census::crossing::count_crossing(
        p, cells, remember, tables, chains, list, region, k,
    );
    if p.entries < crossing {
        return Err(Refusal::Entries);
    }
    Ok(())
}
