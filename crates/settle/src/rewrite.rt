// Rewrite: references to cells that moved go by the forward reference in word 1 of the old cell. They stand in the remembered slots and in
// the variables; for the copies' own slots see settle, and for all slots, at a collection, the crate `retell`.
ghost use Rattle.std.specs.Prelude.{◌≡◌, ◌≢◌, ℕ, ◌<◌, ◌≤◌, length};
ghost use Rattle.rules.specs.Regions.{regions};
ghost use Rattle.layout.specs.Places.{Room, var_count, var_of, entries_used, cells_words};
ghost use Rattle.layout.specs.Cells.{cell_named, CellIn};
ghost use Rattle.layout.specs.Words.{Names};
ghost use Rattle.remember.specs.Entries.{NamedWith};
ghost use Rattle.chains.specs.Chains.{ChainsWhole};
ghost use Rattle.settle.specs.Rewrite.{forwarded, Rewritten};
ghost use Rattle.settle.specs.RewriteSlots.{Slots, Variables};

use rules::Sizes;

// The reference x, by way of the forward reference where the cell that it names has one.
pub fn forward_ref(cells: &[u32], x: u32) -> u32
    requires { x ≢ 0 → CellIn (cell_named x) (length cells.now) }
    ensures { result ≡ forwarded cells.now x }
{
    if x == 0 {
        return x;
    }
    let forward = layout::cells::work(cells, layout::cells::cell_named(x));
    if forward == 0 {
        return x;
    }
    forward
}

// The remembered slots that point into the region: those along its chain, whose words are 0 at the end, else one more than an entry's place.
pub fn rewrite_slots(p: Sizes, cells: &mut [u32], remember: &[u32], chains: &[u32], region: u32)
    requires slots { Slots p region p.entries (entries_used remember.now) cells.old remember.now }
    requires chains_whole { ChainsWhole p remember.now chains.now }
    requires le_region { (1 ≤ region) × (region ≤ regions p) × (p.threads ≤ 16) × (p.depth ≤ 8) }
    ensures { Rewritten (NamedWith region p.entries (entries_used remember.now) remember.now) cells.old cells.new }
{
    let entries = p.entries;
    let last = layout::regions::last_region(p);
    let mut x = layout::chains::first(chains, region as usize) as usize;
    while x != 0 {
        let i = x - 1;
        let at = layout::remember::slot(entries, remember, i) as usize;
        cells[at] = forward_ref(cells, cells[at]);
        x = layout::chains::next(last, chains, i) as usize;
    }
}

// The variables of all threads.
pub fn rewrite_variables(p: Sizes, cells: &[u32], tables: &mut [u32])
    requires by_index { (i : ℕ) → i < var_count p → Names p (var_of p tables.old i) }
    requires p_in_bounds { cells_words p ≤ length cells.now }
    requires room { Room p (length tables.old) }
    ensures { Variables p (var_count p) cells.now tables.old tables.new }
{
    for i in 0..layout::tables::var_count(p) {
        let x = forward_ref(cells, layout::tables::var(p, tables, i));
        layout::tables::set_var(p, tables, i, x);
    }
}
