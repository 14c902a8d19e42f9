// Settle, after the copying: references to cells that moved go by the forward references, in the remembered slots, the variables and the
// copies' own slots, and the remember table follows, with its chains. The copies' slots are gone over once: each becomes what it is to be, and
// if it crosses then, its entry comes.
#![tactic(auto)]

pub mod entries;
pub mod renew;
pub mod rewrite;
pub mod touched;

ghost use Rattle.std.specs.Prelude.{◌≡◌, ℕ, ◌<◌, length};
ghost use Rattle.lists.specs.Part.{Rises, Off, Lists};
ghost use Rattle.layout.specs.Places.{Room, owner_of, mark_of, entries_used};
ghost use Rattle.layout.specs.Cells.{refs_of};
ghost use Rattle.chains.specs.Chains.{with_chains};
ghost use Rattle.settle.specs.Rewrite.{Rewritten};
ghost use Rattle.settle.specs.RewriteSlots.{Field, Fields};
ghost use Rattle.settle.specs.RewriteCopies.{CopySlot, Wiring, OnPage, OnPages};
ghost use Rattle.settle.specs.Update.{Copies, Settles, Updated};
ghost use Rattle.settle.specs.Settle.{Settling, Settled};
ghost use Rattle.settle.specs.Touched.{Chained};

use crate::renew::renew_chains;
use crate::rewrite::forward_ref;
use crate::touched::{first_own, first_touched};
use layout::Kind;
use remember::crossing::cross;
use remember::entries::{close_entries, put_entry};
use remember::filter::filter_entries;
use rules::Sizes;
use sorting::order::order_entries;

// The reference fields of a copy. Those that cross come after the first j entries; how many there are then. They are written and told in one pass, where a
// collection writes all (`rewrite_cell`) and later tells all (`tell_cell`).
pub fn settle_cell(
    p: Sizes,
    cells: &mut [u32],
    remember: &mut [u32],
    tables: &[u32],
    cell: usize,
    j: usize,
) -> usize
    requires fields { Fields p (refs_of cells.old cell) cell cells.old }
    requires settling { Settling p p.entries (Field cell (refs_of cells.old cell)) cells.old remember.old tables.now j }
    requires room { Room p (length tables.now) }
    ensures { Settled p p.entries (Field cell (refs_of cells.old cell)) cells.old remember.old tables.now j cells.new remember.new result }
{
    let n = layout::cells::field_count(Kind::Reference, layout::cells::head(cells, cell));
    let from = layout::tables::owner(p, tables, layout::cells::page_of(cell));
    let mut i = j;
    for f in 0..n {
        let x = forward_ref(cells, layout::cells::field(cells, cell, f));
        let to = cross(p, tables, from, x);
        layout::cells::set_field(cells, cell, f, x);
        if to != 0 {
            put_entry(
                p.entries,
                remember,
                i,
                layout::cells::field_at(cell, f) as u32,
                to,
            );
            i += 1;
        }
    }
    i
}

// Those of the copies of a page's survivors: as many as the upper half of its mark word has ones.
pub fn settle_page(
    p: Sizes,
    cells: &mut [u32],
    remember: &mut [u32],
    tables: &[u32],
    page: usize,
    j: usize,
) -> usize
    requires wiring { Wiring p (OnPage page) cells.old tables.now }
    requires settling { Settling p p.entries (CopySlot p (OnPage page) cells.old tables.now) cells.old remember.old tables.now j }
    requires page_lt_pages { page < p.pages }
    ensures { Settled p p.entries (CopySlot p (OnPage page) cells.old tables.now) cells.old remember.old tables.now j cells.new remember.new result }
{
    let copied = layout::bits::upper_half(layout::tables::mark(p, tables, page));
    let mut i = j;
    let mut left = copied;
    for _ in 0..copied.count_ones() {
        let a = left.trailing_zeros();
        let forward = layout::cells::work(cells, layout::cells::cell_on(page, a as usize));
        let copy = layout::cells::cell_named(forward);
        i = settle_cell(p, cells, remember, tables, copy, i);
        left = layout::bits::without_bit(left, a);
    }
    i
}

// Those of all copies. Survivors were copied off listed pages only.
pub fn settle_copies(
    p: Sizes,
    cells: &mut [u32],
    remember: &mut [u32],
    tables: &[u32],
    list: &[u32],
    j: usize,
) -> usize
    requires wiring { Wiring p (OnPages p.pages) cells.old tables.now }
    requires settling { Settling p p.entries (CopySlot p (OnPages p.pages) cells.old tables.now) cells.old remember.old tables.now j }
    requires rises { Rises p.pages (length list.now) list.now }
    requires by_index { (page : ℕ) → page < p.pages → Off list.now (length list.now) page → mark_of p tables.now page ≡ 0 }
    ensures { Settled p p.entries (CopySlot p (OnPages p.pages) cells.old tables.now) cells.old remember.old tables.now j cells.new remember.new result }
{
    let mut i = j;
    for page in list {
        i = settle_page(p, cells, remember, tables, *page as usize, i);
    }
    i
}

// The copies' slots and the remember table after the end: the entries that stay and those of the copies, by rising slot, then zeros; and its chains.
pub fn settle(
    p: Sizes,
    cells: &mut [u32],
    remember: &mut [u32],
    tables: &[u32],
    chains: &mut [u32],
    list: &[u32],
    region: u32,
)
    requires settles { Settles p region p.entries (entries_used remember.old) cells.old remember.old tables.now }
    requires lists { Lists (λ page. owner_of p tables.now page ≡ region) p.pages (length list.now) list.now }
    requires by_index { (page : ℕ) → page < p.pages → Off list.now (length list.now) page → mark_of p tables.now page ≡ 0 }
    requires chained { Chained p region remember.old tables.now chains.old }
    ensures rewritten { Rewritten (Copies p cells.old tables.now) cells.old cells.new }
    ensures updated { Updated p region p.entries (entries_used remember.old) cells.new remember.old tables.now remember.new }
    ensures chains_after { chains.new ≡ with_chains p remember.new chains.old }
{
    let used = layout::remember::used(remember) as usize;
    let own = first_own(p, remember, list);
    let from = first_touched(chains, region, own);
    let kept = filter_entries(p, cells, remember, tables, region, from, used);
    let all = settle_copies(p, cells, remember, tables, list, kept);
    close_entries(p.entries, remember, all, used);
    order_entries(p.entries, remember, kept);
    renew_chains(p, remember, chains, region, from, own, used);
}
