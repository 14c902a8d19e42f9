// The first stage of an end.
ghost use Rattle.std.specs.Prelude.{◌≡◌, ◌<◌, ◌≤◌};
ghost use Rattle.lists.specs.Says.{Says};
ghost use Rattle.rules.specs.Regions.{region_at};
ghost use Rattle.layout.specs.Places.{depth_of};
ghost use Rattle.layout.specs.Words.{words};
ghost use Rattle.chains.specs.Chains.{ChainsWhole};
ghost use Rattle.promises.specs.Whole.{WholeFor};
ghost use Rattle.promises.specs.Ends.{part_of};
ghost use Rattle.mark.specs.Marks.{AnyMarked};
ghost use Rattle.mark.specs.Survivors.{Marked};

use crate::levels::mark_levels;
use rules::Sizes;

// Marks what survives the end of the thread's innermost region, at the given level. Says whether anything does.
pub fn mark_survivors(
    p: Sizes,
    cells: &mut [u32],
    remember: &[u32],
    tables: &mut [u32],
    chains: &[u32],
    thread: usize,
    level: usize,
    region: u32,
) -> bool
    requires whole_for { WholeFor p (words cells.old remember.now tables.old) }
    requires chains_whole { ChainsWhole p remember.now chains.now }
    requires thread_lt_threads { (thread < p.threads) × (level ≡ depth_of tables.old thread) × (1 ≤ level) × (region ≡ region_at p thread level) }
    ensures marked { Marked p (words cells.old remember.now tables.old) (part_of p (words cells.old remember.now tables.old) region) (words cells.new remember.now tables.new) }
    ensures says { Says result (AnyMarked p tables.new) }
{
    let outer = layout::regions::region_at(p, thread, level - 1);
    mark_levels(
        p, cells, remember, tables, chains, region, thread, outer, level,
    )
}
