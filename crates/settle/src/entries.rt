// The remember table where nothing is copied.
ghost use Rattle.std.specs.Prelude.{◌≡◌, ℕ, length};
ghost use Rattle.lists.specs.Part.{Lists};
ghost use Rattle.layout.specs.Places.{owner_of, entries_used};
ghost use Rattle.chains.specs.Chains.{with_chains};
ghost use Rattle.settle.specs.Update.{Copies, Settles, Updated};
ghost use Rattle.settle.specs.Touched.{Chained};

use crate::renew::renew_chains;
use crate::touched::{first_own, first_touched};
use remember::entries::close_entries;
use remember::filter::filter_entries;
use rules::Sizes;

// The remember table after an end that copies nothing: the entries that stay, then zeros; and its chains.
pub fn keep_entries(
    p: Sizes,
    cells: &[u32],
    remember: &mut [u32],
    tables: &[u32],
    chains: &mut [u32],
    list: &[u32],
    region: u32,
)
    requires settles { Settles p region p.entries (entries_used remember.old) cells.now remember.old tables.now }
    requires by_index { (x : ℕ) → Copies p cells.now tables.now x → ⊥ }
    requires lists { Lists (λ page. owner_of p tables.now page ≡ region) p.pages (length list.now) list.now }
    requires chained { Chained p region remember.old tables.now chains.old }
    ensures updated { Updated p region p.entries (entries_used remember.old) cells.now remember.old tables.now remember.new }
    ensures chains_after { chains.new ≡ with_chains p remember.new chains.old }
{
    let used = layout::remember::used(remember) as usize;
    let own = first_own(p, remember, list);
    let from = first_touched(chains, region, own);
    let kept = filter_entries(p, cells, remember, tables, region, from, used);
    close_entries(p.entries, remember, kept, used);
    renew_chains(p, remember, chains, region, from, own, used);
}
