// The end of an epoch once its survivors are marked: word 1 of each cell of the ending region is the region that its object goes to, 0 if
// it is freed, and its bit in the page's mark word says which is not 0. The stages are crates of their own: copy, settle, release; what is
// freed is known by the survivors, which census counts.
#![tactic(auto)]

ghost use Rattle.std.specs.Prelude.{◌≡◌, List, ℕ, ◌<◌, ◌≤◌, length, get_or};
ghost use Rattle.lists.specs.Part.{Lists};
ghost use Rattle.rules.specs.Regions.{regions};
ghost use Rattle.layout.specs.Places.{owner_of, mark_of, count_of};
ghost use Rattle.layout.specs.Words.{words};
ghost use Rattle.chains.specs.Chains.{ChainsWhole, with_chains};
ghost use Rattle.promises.specs.Arriving.{arriving};
ghost use Rattle.pages.specs.Noted.{Noted};
ghost use Rattle.ending.specs.Ending.{Ending, Accepted, HasEnded};

use rules::Sizes;

// The epoch that ends: the innermost one of a thread, at its level, and its region.
#[derive(Clone, Copy)]
pub struct Epoch {
    pub thread: usize,
    pub level: usize,
    pub region: u32,
}

// The accepted end of an epoch whose survivors are marked and whose pages are listed; `come` is not 0 of the regions that survivors go to.
pub fn evacuate(
    p: Sizes,
    cells: &mut [u32],
    remember: &mut [u32],
    tables: &mut [u32],
    chains: &mut [u32],
    notes: &mut [u32],
    list: &[u32],
    come: &[u32],
    epoch: Epoch,
)
    requires by_index { (c t : List ℕ) × Ending p epoch.thread epoch.level epoch.region (words c remember.old t) (words cells.old remember.old tables.old) × Accepted p epoch.region (words c remember.old t) }
    requires lists { Lists (λ page. owner_of p tables.old page ≡ epoch.region) p.pages (length list.now) list.now }
    requires by_index_2 { (g : ℕ) → 1 ≤ g → g ≤ regions p → get_or come.now g 0 ≡ 0 → arriving p cells.old tables.old g ≡ 0 }
    requires noted { Noted p tables.old notes.old × (regions p < length come.now) }
    requires chains_whole { ChainsWhole p remember.old chains.old }
    ensures by_index_3 { (c t : List ℕ) → Ending p epoch.thread epoch.level epoch.region (words c remember.old t) (words cells.old remember.old tables.old) → Accepted p epoch.region (words c remember.old t) → HasEnded p epoch.thread epoch.level epoch.region (words c remember.old t) (words cells.new remember.new tables.new) }
    ensures noted_2 { Noted p tables.new notes.new }
    ensures chains_after { chains.new ≡ with_chains p remember.new chains.old }
{
    let Epoch {
        thread,
        level,
        region,
    } = epoch;
    let survivors = census::survivors::count_survivors(p, tables, list);
    let freed = layout::tables::count(p, tables, region as usize) - survivors;
    copy::copy_survivors(p, cells, tables, notes, list, come, thread, level);
    settle::rewrite::rewrite_slots(p, cells, remember, chains, region);
    settle::settle(p, cells, remember, tables, chains, list, region);
    settle::rewrite::rewrite_variables(p, cells, tables);
    release::release(p, cells, tables, notes, list, region, thread, freed);
}

// The same end where nothing survives and the region's pages are listed; all its objects are freed.
fn free_listed(
    p: Sizes,
    cells: &mut [u32],
    remember: &mut [u32],
    tables: &mut [u32],
    chains: &mut [u32],
    notes: &mut [u32],
    list: &[u32],
    epoch: Epoch,
    objects: u32,
)
    requires by_index { (c t : List ℕ) × Ending p epoch.thread epoch.level epoch.region (words c remember.old t) (words cells.old remember.old tables.old) × Accepted p epoch.region (words c remember.old t) }
    requires by_index_2 { (page : ℕ) → page < p.pages → mark_of p tables.old page ≡ 0 }
    requires noted { Noted p tables.old notes.old }
    requires chains_whole { ChainsWhole p remember.old chains.old }
    requires lists { Lists (λ page. owner_of p tables.old page ≡ epoch.region) p.pages (length list.now) list.now }
    requires objects_value { objects ≡ count_of p tables.old epoch.region }
    ensures by_index_3 { (c t : List ℕ) → Ending p epoch.thread epoch.level epoch.region (words c remember.old t) (words cells.old remember.old tables.old) → Accepted p epoch.region (words c remember.old t) → HasEnded p epoch.thread epoch.level epoch.region (words c remember.old t) (words cells.new remember.new tables.new) }
    ensures noted_2 { Noted p tables.new notes.new }
    ensures chains_after { chains.new ≡ with_chains p remember.new chains.old }
{
    let Epoch { thread, region, .. } = epoch;
    settle::entries::keep_entries(p, cells, remember, tables, chains, list, region);
    release::release(p, cells, tables, notes, list, region, thread, objects);
}

// The same where they are not listed yet.
fn list_and_free(
    p: Sizes,
    cells: &mut [u32],
    remember: &mut [u32],
    tables: &mut [u32],
    chains: &mut [u32],
    notes: &mut [u32],
    epoch: Epoch,
    objects: u32,
)
    requires by_index { (c t : List ℕ) × Ending p epoch.thread epoch.level epoch.region (words c remember.old t) (words cells.old remember.old tables.old) × Accepted p epoch.region (words c remember.old t) }
    requires by_index_2 { (page : ℕ) → page < p.pages → mark_of p tables.old page ≡ 0 }
    requires noted { Noted p tables.old notes.old }
    requires chains_whole { ChainsWhole p remember.old chains.old }
    requires objects_value { objects ≡ count_of p tables.old epoch.region }
    ensures by_index_3 { (c t : List ℕ) → Ending p epoch.thread epoch.level epoch.region (words c remember.old t) (words cells.old remember.old tables.old) → Accepted p epoch.region (words c remember.old t) → HasEnded p epoch.thread epoch.level epoch.region (words c remember.old t) (words cells.new remember.new tables.new) }
    ensures noted_2 { Noted p tables.new notes.new }
    ensures chains_after { chains.new ≡ with_chains p remember.new chains.old }
{
    let mut list = [0u32; 1024];
    let n = pages::list_pages(p, tables, epoch.region, &mut list);
    free_listed(
        p,
        cells,
        remember,
        tables,
        chains,
        notes,
        &list[..n],
        epoch,
        objects,
    );
}

// The end where nothing survives: no mark is set, so nothing moves and nothing leads into the region. Its entries go, its cells are cleared,
// and its pages go. A region without objects has no pages, and needs no list.
pub fn evacuate_none(
    p: Sizes,
    cells: &mut [u32],
    remember: &mut [u32],
    tables: &mut [u32],
    chains: &mut [u32],
    notes: &mut [u32],
    epoch: Epoch,
)
    requires by_index { (c t : List ℕ) × Ending p epoch.thread epoch.level epoch.region (words c remember.old t) (words cells.old remember.old tables.old) × Accepted p epoch.region (words c remember.old t) }
    requires by_index_2 { (page : ℕ) → page < p.pages → mark_of p tables.old page ≡ 0 }
    requires noted { Noted p tables.old notes.old }
    requires chains_whole { ChainsWhole p remember.old chains.old }
    ensures by_index_3 { (c t : List ℕ) → Ending p epoch.thread epoch.level epoch.region (words c remember.old t) (words cells.old remember.old tables.old) → Accepted p epoch.region (words c remember.old t) → HasEnded p epoch.thread epoch.level epoch.region (words c remember.old t) (words cells.new remember.new tables.new) }
    ensures noted_2 { Noted p tables.new notes.new }
    ensures chains_after { chains.new ≡ with_chains p remember.new chains.old }
{
    let objects = layout::tables::count(p, tables, epoch.region as usize);
    if objects != 0 {
        list_and_free(p, cells, remember, tables, chains, notes, epoch, objects);
    } else {
        free_listed(
            p,
            cells,
            remember,
            tables,
            chains,
            notes,
            &[],
            epoch,
            objects,
        );
    }
}
