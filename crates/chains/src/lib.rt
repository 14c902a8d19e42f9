// The chains of the remember table by region (02, W6): they are written anew, and compared with lent words. `last` is the last region; there are at
// most 1 + 16 × 8.
#![tactic(auto)]

ghost use Rattle.std.specs.Prelude.{◌≡◌, ◌++◌, Bool, true, ℕ, ◌+◌, ◌≤◌, ◌<◌, length, get_or, take, drop, MatchOption};
ghost use Rattle.lists.specs.Says.{Says};
ghost use Rattle.layout.specs.Places.{chains_words};
ghost use Rattle.remember.specs.Table.{entries_in};
ghost use Rattle.chains.specs.Chains.{chains_of, Listed, Chainable, ChainsWhole, with_chains};
ghost use Rattle.chains.specs.Linking.{Firsts, NextsAgree};

use rules::Sizes;

// From the last entry down, each becomes the first of its region, before the one that was.
fn relink(entries: usize, remember: &[u32], last: usize, chains: &mut [u32])
    requires listed { Listed last entries remember.now }
    requires entries_in_bounds { last + entries ≤ length chains.old }
    ensures { chains.new ≡ chains_of last entries (entries_in entries remember.now) ++ drop (last + entries) chains.old }
{
    layout::clear(chains, 0, last + entries);
    let used = layout::remember::used(remember) as usize;
    for i in (0..used).rev() {
        let g = layout::remember::region(entries, remember, i) as usize;
        let next = layout::chains::first(chains, g);
        layout::chains::set_next(last, chains, i, next);
        layout::chains::set_first(chains, g, (i + 1) as u32);
    }
}

// The chains of a remember table, written anew.
pub fn rebuild(p: Sizes, remember: &[u32], chains: &mut [u32])
    requires chainable { Chainable p remember.now }
    requires p_in_bounds { chains_words p ≤ length chains.old }
    ensures { chains.new ≡ with_chains p remember.now chains.old }
{
    relink(p.entries, remember, layout::regions::last_region(p), chains);
}

// The first words, if each used entry's next word is right; from the last entry down.
fn first_words(entries: usize, remember: &[u32], last: usize, chains: &[u32]) -> Option<[u32; 129]>
    requires listed { Listed last entries remember.now }
    requires entries_in_bounds { last + entries ≤ length chains.now }
    ensures { MatchOption result (NextsAgree last (entries_in entries remember.now) chains.now → ⊥) (λ first. NextsAgree last (entries_in entries remember.now) chains.now × (length first ≡ 129) × Firsts last (entries_in entries remember.now) 0 first) }
{
    let mut first = [0; 129];
    for i in (0..layout::remember::used(remember) as usize).rev() {
        let g = layout::remember::region(entries, remember, i) as usize;
        if layout::chains::next(last, chains, i) != layout::chains::first(&first, g) {
            return None;
        }
        layout::chains::set_first(&mut first, g, (i + 1) as u32);
    }
    Some(first)
}

// Whether all of the words are zero.
fn all_zero(words: &[u32]) -> bool
    ensures { Says result ((j : ℕ) → j < length words.now → get_or words.now j 0 ≡ 0) }
{
    words.iter().all(|x| *x == 0)
}

// Whether the words are those of the chains.
fn words_agree(entries: usize, remember: &[u32], last: usize, chains: &[u32]) -> bool
    requires listed { Listed last entries remember.now }
    requires entries_in_bounds { last + entries ≤ length chains.now }
    ensures { Says result (take (last + entries) chains.now ≡ chains_of last entries (entries_in entries remember.now)) }
{
    let Some(first) = first_words(entries, remember, last, chains) else {
        return false;
    };
    let used = layout::remember::used(remember) as usize;
    all_zero(&chains[last + used..last + entries]) && chains[..last] == first[..last]
}

// Question 16: whether a slice is long enough, and has the chains of a remember table.
pub fn chains_whole(p: Sizes, remember: &[u32], chains: &[u32]) -> bool
    requires { Chainable p remember.now }
    ensures { Says result (ChainsWhole p remember.now chains.now) }
{
    let last = layout::regions::last_region(p);
    let entries = p.entries;
    last + entries <= chains.len() && words_agree(entries, remember, last, chains)
}
