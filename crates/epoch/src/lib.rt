// The end of an epoch (code 2): mark what survives; where nothing does, list the region's pages, take its slots out of the remember table and free
// them; else list its pages, count over them, refuse and undo the marking where pages or entries are too few, or copy, rewrite, remember and release.
#![tactic(auto)]

ghost use Rattle.std.specs.Prelude.{◌≡◌, List, ℕ, ◌<◌};
ghost use Rattle.rules.specs.Refusals.{answer_of};
ghost use Rattle.layout.specs.Words.{words};
ghost use Rattle.chains.specs.Chains.{ChainsWhole, with_chains};
ghost use Rattle.promises.specs.Whole.{WholeFor};
ghost use Rattle.promises.specs.Promises.{DidHere};
ghost use Rattle.pages.specs.Noted.{Noted};
ghost use Rattle.ended.specs.AfterEnd.{end_of};
ghost use Rattle.ending.specs.Ending.{Ending};

use evacuate::Epoch;
use rules::{Refusal, Sizes};

pub mod needs;

// The end of an epoch whose survivors are marked: refused if there are too few free pages (13), or if too many slots would cross (14).
fn end_marked(
    p: Sizes,
    cells: &mut [u32],
    remember: &mut [u32],
    tables: &mut [u32],
    chains: &mut [u32],
    notes: &mut [u32],
    epoch: Epoch,
) -> Result<u32, Refusal>
    requires by_index { (c t : List ℕ) × Ending p epoch.thread epoch.level epoch.region (words c remember.old t) (words cells.old remember.old tables.old) }
    requires noted { Noted p tables.old notes.old }
    requires chains_whole { ChainsWhole p remember.old chains.old }
    ensures by_index_2 { (c t : List ℕ) → Ending p epoch.thread epoch.level epoch.region (words c remember.old t) (words cells.old remember.old tables.old) → DidHere p (words c remember.old t) (end_of epoch.thread) (words cells.new remember.new tables.new) (answer_of result) }
    ensures noted_2 { Noted p tables.new notes.new }
    ensures chains_after { chains.new ≡ with_chains p remember.new chains.old }
{
    let mut list = [0u32; 1024];
    let mut come = [0u32; 130];
    let n = pages::list_pages(p, tables, epoch.region, &mut list);
    let listed = &list[..n];
    let k = census::count::count_listed(p, cells, tables, listed, &mut come);
    let asked = needs::ask_room(p, cells, remember, tables, chains, listed, &come, epoch, k);
    if let Err(refusal) = asked {
        mark::unmark::unmark(p, cells, tables, listed);
        return Err(refusal);
    }
    evacuate::evacuate(
        p, cells, remember, tables, chains, notes, listed, &come, epoch,
    );
    Ok(0)
}

// Ends the thread's innermost epoch: refused if it has none (12). The notes are right of the tables (`Noted`, crate `pages`), the chains of the
// remember table (`ChainsWhole`, crate `chains`).
pub fn end(
    p: Sizes,
    cells: &mut [u32],
    remember: &mut [u32],
    tables: &mut [u32],
    chains: &mut [u32],
    notes: &mut [u32],
    thread: usize,
) -> Result<u32, Refusal>
    requires whole_for { WholeFor p (words cells.old remember.old tables.old) }
    requires thread_lt_threads { thread < p.threads }
    requires noted { Noted p tables.old notes.old }
    requires chains_whole { ChainsWhole p remember.old chains.old }
    ensures did_here { DidHere p (words cells.old remember.old tables.old) (end_of thread) (words cells.new remember.new tables.new) (answer_of result) }
    ensures noted_2 { Noted p tables.new notes.new }
    ensures chains_after { chains.new ≡ with_chains p remember.new chains.old }
{
    let level = layout::tables::depth(p, tables, thread) as usize;
    if level == 0 {
        return Err(Refusal::NoEpoch);
    }
    let region = layout::regions::region_at(p, thread, level);
    let epoch = Epoch {
        thread,
        level,
        region,
    };
    if mark::survivors::mark_survivors(p, cells, remember, tables, chains, thread, level, region) {
        return end_marked(p, cells, remember, tables, chains, notes, epoch);
    }
    evacuate::evacuate_none(p, cells, remember, tables, chains, notes, epoch);
    Ok(0)
}
