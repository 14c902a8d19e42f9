// The check that lent words are whole tables (01, "Sizes and tables"; 02, W1 and W2). Any words may be handed in. It only reads, looks at no word
// past the three lengths, and ends at the first word or cell that breaks a condition.
#![tactic(auto)]

ghost use Rattle.std.specs.Prelude.{length};
ghost use Rattle.lists.specs.Says.{Says};
ghost use Rattle.layout.specs.Places.{Room};
ghost use Rattle.layout.specs.Words.{words};
ghost use Rattle.promises.specs.Whole.{Sized, WholeFor, WholeWords};

use rules::Sizes;

pub mod cells;
pub mod counters;
pub mod entries;
pub mod pages;
pub mod regions;
pub mod sizes;
pub mod unused;
pub mod variables;

// The conditions after the first, of tables whose sizes are known.
pub fn placed_whole(p: Sizes, cells: &[u32], remember: &[u32], tables: &[u32]) -> bool
    requires room { Room p (length tables.now) }
    requires sized { Sized p (words cells.now remember.now tables.now) }
    ensures { Says result (WholeFor p (words cells.now remember.now tables.now)) }
{
    let used = layout::remember::used(remember) as usize;
    pages::depths_whole(p, tables)
        && regions::regions_whole(p, tables)
        && counters::counters_whole(p, tables)
        && variables::variables_whole(p, cells, tables)
        && cells::cells_whole(p, cells, tables, used)
        && unused::unused_whole(p, cells, tables)
        && entries::entries_whole(p, cells, remember, tables)
}

pub fn whole(cells: &[u32], remember: &[u32], tables: &[u32]) -> bool
    ensures { Says result (WholeWords (words cells.now remember.now tables.now)) }
{
    if !sizes::sizes_whole(cells, remember, tables) {
        return false;
    }
    let p = layout::read_sizes(tables);
    placed_whole(p, cells, remember, tables)
}
