// The entries that are used name crossing slots, by rising position, with the right region; those that are not used are zero. The passes are `for`s:
// by `all` over a range they were tried, and what the function ensures stayed open.
ghost use Rattle.std.specs.Prelude.{◌≡◌, ◌<◌, ◌≤◌, length};
ghost use Rattle.lists.specs.Says.{Says};
ghost use Rattle.layout.specs.Places.{Room, cells_words, remember_words, entries_used, slot_in, slot_region_in, entries_words};
ghost use Rattle.remember.specs.Entries.{EachOf, Rising, ZeroBetween, RestZero};
ghost use Rattle.promises.specs.Whole.{EntryWhole, EntriesWhole};

use remember::crossing::cross_to;
use rules::Sizes;

pub fn entry_whole(p: Sizes, cells: &[u32], remember: &[u32], tables: &[u32], i: usize) -> bool
    requires room { Room p (length tables.now) }
    requires p_in_bounds { cells_words p ≤ length cells.now }
    requires p_in_bounds_2 { remember_words p ≤ length remember.now }
    requires i_lt_entries { i < p.entries }
    ensures { Says result (EntryWhole p cells.now tables.now (slot_in remember.now i) (slot_region_in p.entries remember.now i)) }
{
    let at = layout::remember::slot(p.entries, remember, i) as usize;
    let region = layout::remember::region(p.entries, remember, i);
    at < layout::cells::words(p) && region != 0 && cross_to(p, cells, tables, at) == region
}

pub fn named_whole(p: Sizes, cells: &[u32], remember: &[u32], tables: &[u32], used: usize) -> bool
    requires room { Room p (length tables.now) }
    requires p_in_bounds { cells_words p ≤ length cells.now }
    requires p_in_bounds_2 { remember_words p ≤ length remember.now }
    requires used_value { (used ≡ entries_used remember.now) × (used ≤ p.entries) }
    ensures { Says result (EachOf (EntryWhole p cells.now tables.now) p.entries remember.now) }
{
    for i in 0..used {
        if !entry_whole(p, cells, remember, tables, i) {
            return false;
        }
    }
    true
}

// Whether the entries of a stretch are zero, slot and region.
pub fn zero_between(entries: usize, remember: &[u32], from: usize, to: usize) -> bool
    requires entries_in_bounds { entries_words entries ≤ length remember.now }
    requires to_le_entries { to ≤ entries }
    ensures { Says result (ZeroBetween entries remember.now from to) }
{
    for i in from..to {
        if layout::remember::slot(entries, remember, i) != 0
            || layout::remember::region(entries, remember, i) != 0
        {
            return false;
        }
    }
    true
}

// Eight entries in a turn: a stretch of known length is compiled without a loop, and a plain loop over all took a fifth more instructions a block of
// five commands. The first word that is not zero still ends it.
pub fn rest_zero(p: Sizes, remember: &[u32], used: usize) -> bool
    requires p_in_bounds { remember_words p ≤ length remember.now }
    requires used_value { (used ≡ entries_used remember.now) × (used ≤ p.entries) }
    ensures { Says result (RestZero p.entries remember.now) }
{
    let entries = p.entries;
    let mut i = used;
    while i + 7 < entries {
        if !zero_between(entries, remember, i, i + 8) {
            return false;
        }
        i += 8;
    }
    zero_between(entries, remember, i, entries)
}

// Whether the slots rise: each is above the one before it.
pub fn rising(p: Sizes, remember: &[u32], used: usize) -> bool
    requires p_in_bounds { remember_words p ≤ length remember.now }
    requires used_value { (used ≡ entries_used remember.now) × (used ≤ p.entries) }
    ensures { Says result (Rising remember.now (entries_used remember.now)) }
{
    let entries = p.entries;
    for i in 1..used {
        let before = layout::remember::slot(entries, remember, i - 1);
        if layout::remember::slot(entries, remember, i) <= before {
            return false;
        }
    }
    true
}

pub fn entries_whole(p: Sizes, cells: &[u32], remember: &[u32], tables: &[u32]) -> bool
    requires room { Room p (length tables.now) }
    requires p_in_bounds { cells_words p ≤ length cells.now }
    requires p_in_bounds_2 { remember_words p ≤ length remember.now }
    ensures { Says result (EntriesWhole p cells.now remember.now tables.now) }
{
    let used = layout::remember::used(remember) as usize;
    used <= p.entries
        && named_whole(p, cells, remember, tables, used)
        && rising(p, remember, used)
        && rest_zero(p, remember, used)
}
