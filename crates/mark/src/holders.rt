// The holders at the end of region r: all variables, and the remembered slots that point into r, which the chain of r leads to (02, W6).
// Those that call for one region are pushed in one pass over both. What calls for another reads as null, the word 0, which a push
// passes over.
ghost use Rattle.std.specs.Prelude.{◌≡◌, List, ℕ, ◌<◌, ◌≤◌, length};
ghost use Rattle.rules.specs.Regions.{regions};
ghost use Rattle.lists.specs.Says.{Says};
ghost use Rattle.layout.specs.Places.{var_thread, Room, entries_used, slot_in, slot_region_in, cells_words, remember_words, var_count};
ghost use Rattle.chains.specs.Chains.{ChainsWhole};
ghost use Rattle.mark.specs.Marks.{Shaped};
ghost use Rattle.mark.specs.Pushes.{Pushing};
ghost use Rattle.mark.specs.Holders.{var_calls, var_held, slot_held, Holding};

use crate::push::push;
use rules::Sizes;

// Whether variable i is the thread's. It is told without a division, since it is asked of every variable.
fn is_own(p: Sizes, thread: usize, i: usize) -> bool
    requires { (1 ≤ p.variables) × (p.variables ≤ 32) × (thread ≤ 16) }
    ensures { Says result (var_thread p i ≡ thread) }
{
    let first = thread * p.variables;
    first <= i && i < first + p.variables
}

// The region that variable i calls for: outer if it is the ending thread's, else the control space.
pub fn variable_calls(p: Sizes, thread: usize, outer: u32, i: usize) -> u32
    requires { (1 ≤ p.variables) × (p.variables ≤ 32) × (thread ≤ 16) }
    ensures { result ≡ var_calls p thread outer i }
{
    if is_own(p, thread, i) { outer } else { 1 }
}

// What variable i holds if it calls for g, else null.
pub fn variable_for(p: Sizes, tables: &[u32], thread: usize, outer: u32, g: u32, i: usize) -> u32
    requires room { Room p (length tables.now) }
    requires le_variables { (1 ≤ p.variables) × (i < var_count p) × (thread ≤ 16) }
    ensures { result ≡ var_held p tables.now thread outer g i }
{
    if variable_calls(p, thread, outer, i) != g {
        return 0;
    }
    layout::tables::var(p, tables, i)
}

// What the slot of entry i, which points into r, holds if it calls for g, else null.
pub fn slot_for(
    p: Sizes,
    cells: &[u32],
    remember: &[u32],
    tables: &[u32],
    r: u32,
    g: u32,
    i: usize,
) -> u32
    requires room { Room p (length tables.now) }
    requires p_in_bounds { (cells_words p ≤ length cells.now) × (remember_words p ≤ length remember.now) }
    requires i_lt_entries { (i < p.entries) × (slot_in remember.now i < cells_words p) × (slot_region_in p.entries remember.now i ≡ r) }
    ensures { result ≡ slot_held p cells.now remember.now tables.now r g i }
{
    let at = layout::remember::slot(p.entries, remember, i) as usize;
    let home = layout::tables::owner(p, tables, layout::cells::page_at(at));
    if joins::join(p, r, home) != g {
        return 0;
    }
    cells[at]
}

// Pushes what the variables hold that call for g: they call for the control space and for outer alone.
pub fn push_variables(
    p: Sizes,
    cells: &mut [u32],
    tables: &mut [u32],
    r: u32,
    thread: usize,
    outer: u32,
    g: u32,
    top: u32,
) -> u32
    requires shaped { Shaped p cells.old tables.old }
    requires by_index { (m : List ℕ) × Holding p cells.old m tables.old }
    requires thread_bound { thread ≤ 16 }
    ensures { Pushing p r (var_held p tables.old thread outer g) cells.old tables.old top cells.new tables.new result (var_count p) }
{
    if g != 1 && g != outer {
        return top;
    }
    let mut t = top;
    for i in 0..layout::tables::var_count(p) {
        let x = variable_for(p, tables, thread, outer, g, i);
        t = push(p, cells, tables, r, x, t);
    }
    t
}

// Pushes what the remembered slots hold that point into r and call for g, along the chain of r.
pub fn push_slots(
    p: Sizes,
    cells: &mut [u32],
    remember: &[u32],
    tables: &mut [u32],
    chains: &[u32],
    r: u32,
    g: u32,
    top: u32,
) -> u32
    requires shaped { Shaped p cells.old tables.old }
    requires holding { Holding p cells.old remember.now tables.old }
    requires chains_whole { ChainsWhole p remember.now chains.now }
    requires le_r { (1 ≤ r) × (r ≤ regions p) }
    ensures { Pushing p r (slot_held p cells.old remember.now tables.old r g) cells.old tables.old top cells.new tables.new result (entries_used remember.now) }
{
    let last = layout::regions::last_region(p);
    let mut t = top;
    let mut x = layout::chains::first(chains, r as usize);
    while x != 0 {
        let i = x as usize - 1;
        let y = slot_for(p, cells, remember, tables, r, g, i);
        t = push(p, cells, tables, r, y, t);
        x = layout::chains::next(last, chains, i);
    }
    t
}
