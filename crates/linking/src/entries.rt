// A slot is remembered anew, and the chains follow: they are those of the remember table before, and those of the table after.
ghost use Rattle.std.specs.Prelude.{◌≡◌, ℕ, ◌+◌, ◌^◌, ◌<◌, ◌≤◌, length, set};
ghost use Rattle.rules.specs.Refusals.{asked};
ghost use Rattle.rules.specs.Regions.{regions};
ghost use Rattle.layout.specs.Places.{entries_used, slot_in};
ghost use Rattle.remember.specs.Table.{entry, entries_in, inserted, removed, Table};
ghost use Rattle.remember.specs.Remembering.{Remembered};
ghost use Rattle.chains.specs.Chains.{Chainable, ChainsWhole, with_chains};
ghost use Rattle.linking.specs.EntryChains.{with_chains_of};

use crate::joins::{link, unlink};
use crate::moves::{close_place, open_place};
use remember::entries::{find_entry, insert_entry, remove_entry};
use rules::{Refusal, Sizes};

// The chains when an entry of a region is to come before the one at a place.
fn comes(p: Sizes, remember: &[u32], chains: &mut [u32], place: usize, region: usize)
    requires chainable { Chainable p remember.now }
    requires chains_whole { ChainsWhole p remember.now chains.old }
    requires place_bound { (place ≤ entries_used remember.now) × (entries_used remember.now < p.entries) × (1 ≤ region) × (region ≤ regions p) }
    ensures { (at : ℕ) → chains.new ≡ with_chains_of p (inserted place (entry at region) (entries_in p.entries remember.now)) chains.old }
{
    let last = layout::regions::last_region(p);
    let used = layout::remember::used(remember) as usize;
    open_place(last, used, chains, place);
    link(last, chains, region, place);
}

// The chains when the entry at a place is to go.
fn goes(p: Sizes, remember: &[u32], chains: &mut [u32], place: usize)
    requires chainable { Chainable p remember.now }
    requires chains_whole { ChainsWhole p remember.now chains.old }
    requires place_bound { place < entries_used remember.now }
    ensures { chains.new ≡ with_chains_of p (removed place (entries_in p.entries remember.now)) chains.old }
{
    let last = layout::regions::last_region(p);
    let used = layout::remember::used(remember) as usize;
    let region = layout::remember::region(p.entries, remember, place) as usize;
    unlink(last, chains, region, place);
    close_place(last, used - 1, chains, place);
}

// The chains when the entry at a place is to be of another region.
fn changes(p: Sizes, remember: &[u32], chains: &mut [u32], place: usize, region: usize)
    requires chainable { Chainable p remember.now }
    requires chains_whole { ChainsWhole p remember.now chains.old }
    requires place_bound { (place < entries_used remember.now) × (1 ≤ region) × (region ≤ regions p) }
    ensures { (at : ℕ) → chains.new ≡ with_chains_of p (set (entries_in p.entries remember.now) place (entry at region)) chains.old }
{
    let last = layout::regions::last_region(p);
    let from = layout::remember::region(p.entries, remember, place) as usize;
    unlink(last, chains, from, place);
    link(last, chains, region, place);
}

// Slot `at` crossed into `was` and is to cross into `will`: its entry stays, goes, comes or changes its region, or there is no room.
pub fn remember_slot(
    p: Sizes,
    remember: &mut [u32],
    chains: &mut [u32],
    at: usize,
    was: u32,
    will: u32,
) -> Result<(), Refusal>
    requires table { Table p.entries remember.old }
    requires chainable { Chainable p remember.old }
    requires chained { ChainsWhole p remember.old chains.old }
    requires at_bound { (at < 2 ^ 32) × (will ≤ regions p) }
    requires named { 0 < was → (i : ℕ) × (i < entries_used remember.old) × (slot_in remember.old i ≡ at) }
    requires new { was ≡ 0 → (i : ℕ) → i < entries_used remember.old → slot_in remember.old i ≡ at → ⊥ }
    ensures remembered { Remembered p.entries remember.old at was will remember.new (asked result) }
    ensures chains_after { chains.new ≡ with_chains p remember.new chains.old }
{
    if was == will {
        return Ok(());
    }
    let entries = p.entries;
    if was == 0 {
        if entries <= layout::remember::used(remember) as usize {
            return Err(Refusal::Entries);
        }
        let place = find_entry(entries, remember, at as u32);
        comes(p, remember, chains, place, will as usize);
        insert_entry(entries, remember, place, at as u32, will);
        return Ok(());
    }
    let place = find_entry(entries, remember, at as u32);
    if will == 0 {
        goes(p, remember, chains, place);
        remove_entry(entries, remember, place);
        return Ok(());
    }
    changes(p, remember, chains, place, will as usize);
    layout::remember::set_region(entries, remember, place, will);
    Ok(())
}
