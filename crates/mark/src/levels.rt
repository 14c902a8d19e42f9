// Marking, outermost level first, so that each object goes to the outermost region called for by a holder whose chain reaches it.
ghost use Rattle.std.specs.Prelude.{◌≡◌, ℕ, ◌<◌, ◌≤◌};
ghost use Rattle.lists.specs.Says.{Says};
ghost use Rattle.rules.specs.Regions.{region_at, regions};
ghost use Rattle.layout.specs.Cells.{page_of};
ghost use Rattle.layout.specs.Marks.{marked};
ghost use Rattle.chains.specs.Chains.{ChainsWhole};
ghost use Rattle.mark.specs.Marks.{Shaped, AnyMarked};
ghost use Rattle.mark.specs.Levels.{Levels};
ghost use Rattle.mark.specs.Holders.{Holding, held_refs};

use crate::drain::drain;
use crate::holders::{push_slots, push_variables};
use rules::Sizes;

// For each level of the thread below depth, the control space being level 0: what holders calling for its region hold is pushed, then
// all that it leads to inside r is marked. Says whether any object is.
pub fn mark_levels(
    p: Sizes,
    cells: &mut [u32],
    remember: &[u32],
    tables: &mut [u32],
    chains: &[u32],
    r: u32,
    thread: usize,
    outer: u32,
    depth: usize,
) -> bool
    requires shaped { Shaped p cells.old tables.old }
    requires holding { Holding p cells.old remember.now tables.old }
    requires chains_whole { ChainsWhole p remember.now chains.now }
    requires by_index { (c : ℕ) → page_of c < p.pages → marked p tables.old c ≡ 0 }
    requires thread_lt_threads { (thread < p.threads) × (depth ≤ p.depth) }
    requires le_r { (1 ≤ r) × (r ≤ regions p) }
    ensures levels { Levels p r depth (region_at p thread) (λ l. held_refs p cells.old remember.now tables.old r thread outer (region_at p thread l)) cells.old tables.old cells.new tables.new }
    ensures says { Says result (AnyMarked p tables.new) }
{
    let mut found = false;
    for level in 0..depth {
        let g = layout::regions::region_at(p, thread, level);
        let held = push_variables(p, cells, tables, r, thread, outer, g, 0);
        let top = push_slots(p, cells, remember, tables, chains, r, g, held);
        if drain(p, cells, tables, r, g, top) != 0 {
            found = true;
        }
    }
    found
}
