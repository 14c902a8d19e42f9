// The collection of the control space (code 11; 02, W5; 003, Algorithm 4): mark what it keeps; list its pages; number the survivors, whose new places
// stand in word 1 of their cells then; rewrite the variables and the slots of all cells in use by these; slide the survivors to their places; give back
// the cells and the pages that they leave; count; and tell the remember table anew, with its chains. It takes no page and no entry more, so nothing is refused.
#![tactic(auto)]

ghost use Rattle.std.specs.Prelude.{◌≡◌, List, ℕ, ◌-◌, ◌<◌, ◌≤◌, length};
ghost use Rattle.rules.specs.Regions.{control};
ghost use Rattle.rules.specs.Terms.{done};
ghost use Rattle.layout.specs.Places.{Room, count_of, chains_words};
ghost use Rattle.layout.specs.Words.{words};
ghost use Rattle.chains.specs.Chains.{with_chains};
ghost use Rattle.promises.specs.Whole.{WholeFor};
ghost use Rattle.promises.specs.Promises.{DidHere};
ghost use Rattle.pages.specs.Noted.{Noted};
ghost use Rattle.ended.specs.CollectedDid.{collect_of};
ghost use Rattle.collect.specs.Numbering.{Keeping};
ghost use Rattle.collect.specs.TablesAfter.{SpaceCounted};

use rules::{Answer, Sizes};

// The control space has so many objects, and those that it had more are freed.
fn tally(p: Sizes, tables: &mut [u32], kept: usize)
    requires room { Room p (length tables.old) }
    requires kept_bound { kept ≤ count_of p tables.old control }
    ensures { SpaceCounted p kept (count_of p tables.old control - kept) tables.old tables.new }
{
    let freed = layout::tables::count(p, tables, 1) - kept as u32;
    layout::tables::set_count(p, tables, 1, kept as u32);
    release::count_freed(p, tables, freed);
}

// The collection once what it keeps is marked.
fn collect_marked(
    p: Sizes,
    cells: &mut [u32],
    remember: &mut [u32],
    tables: &mut [u32],
    notes: &mut [u32],
)
    requires by_index { (c t : List ℕ) × Keeping p (words c remember.old t) (words cells.old remember.old tables.old) }
    requires noted { Noted p tables.old notes.old }
    ensures by_index_2 { (c t : List ℕ) → Keeping p (words c remember.old t) (words cells.old remember.old tables.old) → (u : ℕ) → u < p.threads → DidHere p (words c remember.old t) (collect_of u) (words cells.new remember.new tables.new) (done 0) }
    ensures noted_2 { Noted p tables.new notes.new }
{
    let mut list = [0u32; 1024];
    let n = pages::list_pages(p, tables, 1, &mut list);
    let listed = &list[..n];
    release::note_released(p, notes, listed);
    let kept = slide::number::number_kept(p, cells, tables, listed);
    settle::rewrite::rewrite_variables(p, cells, tables);
    retell::cells::rewrite_cells(p, cells, tables);
    slide::slide::slide_kept(p, cells, tables, listed);
    slide::trim::trim_pages(p, cells, tables, listed, kept);
    tally(p, tables, kept);
    retell::retell(p, cells, remember, tables);
}

// Collects the control space, for whichever thread asks: it is done, and the answer is two words, as C reads them. The notes are right of the tables (`Noted`, crate `pages`).
pub fn collect(
    p: Sizes,
    cells: &mut [u32],
    remember: &mut [u32],
    tables: &mut [u32],
    chains: &mut [u32],
    notes: &mut [u32],
) -> Answer
    requires whole_for { WholeFor p (words cells.old remember.old tables.old) }
    requires p_in_bounds { chains_words p ≤ length chains.old }
    requires noted { Noted p tables.old notes.old }
    ensures by_index { (t : ℕ) → t < p.threads → DidHere p (words cells.old remember.old tables.old) (collect_of t) (words cells.new remember.new tables.new) result }
    ensures chains_after { chains.new ≡ with_chains p remember.new chains.old }
    ensures noted_2 { Noted p tables.new notes.new }
{
    keep::mark_kept(p, cells, tables);
    collect_marked(p, cells, remember, tables, notes);
    chains::rebuild(p, remember, chains);
    rules::done(0)
}
