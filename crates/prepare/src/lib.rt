// prepare: the words of an unused heap in four lent slices.
#![tactic(auto)]

ghost use Rattle.std.specs.Prelude.{◌≡◌, List, ℕ, length};
ghost use Rattle.rules.specs.Refusals.{asked};
ghost use Rattle.promises.specs.Slices.{slices};
ghost use Rattle.promises.specs.Promises.{PrepareAsked, Prepared};
ghost use Rattle.prepare.specs.Prepare.{sizes};

use rules::{Refusal, Sizes};

// Questions 1 and 2, of slices of these lengths: the first that says no, if one does.
fn ask(s: Sizes, cells: usize, remember: usize, tables: usize, chains: usize) -> Result<(), Refusal>
    ensures { (c m t k : List ℕ) → length c ≡ cells → length m ≡ remember → length t ≡ tables → length k ≡ chains → PrepareAsked s (slices c m t k) (asked result) }
{
    if !layout::in_range(s) {
        return Err(Refusal::Sizes);
    }
    if cells < layout::lengths::cells_words(s)
        || remember < layout::lengths::remember_words(s)
        || tables < layout::lengths::tables_words(s)
        || chains < layout::lengths::chains_words(s)
    {
        return Err(Refusal::Short);
    }
    Ok(())
}

// Writes the words of an unused heap of these sizes, every one up to the four lengths, cells (02, W1) and chains (02, W6) with zeros. Gives 0, or on
// refusal, with nothing written, 1 for a size out of range and 2 for a slice that is too short. Words past the four lengths never change.
pub fn taldreku_prepare(
    threads: u32,
    variables: u32,
    depth: u32,
    pages: u32,
    entries: u32,
    cells: &mut [u32],
    remember: &mut [u32],
    tables: &mut [u32],
    chains: &mut [u32],
) -> u32
    ensures { Prepared (sizes threads variables depth pages entries) (slices cells.old remember.old tables.old chains.old) result (slices cells.new remember.new tables.new chains.new) }
{
    let s = Sizes {
        threads: threads as usize,
        variables: variables as usize,
        depth: depth as usize,
        pages: pages as usize,
        entries: entries as usize,
    };
    if let Err(refusal) = ask(s, cells.len(), remember.len(), tables.len(), chains.len()) {
        return refusal.number();
    }
    layout::clear(cells, 0, layout::lengths::cells_words(s));
    layout::clear(tables, 0, layout::lengths::tables_words(s));
    layout::write_sizes(tables, threads, variables, depth, pages, entries);
    layout::clear(remember, 0, layout::lengths::remember_words(s));
    layout::remember::set_entries(remember, entries);
    layout::clear(chains, 0, layout::lengths::chains_words(s));
    0
}
