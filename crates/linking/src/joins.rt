// An entry is taken into the chain of a region, or out of it. Its own word and the word before it in that chain are stored, no other.
ghost use Rattle.std.specs.Prelude.{◌≡◌, ℕ, suc, ◌+◌, ◌^◌, ◌≤◌, ◌<◌, length, get_or};
ghost use Rattle.linking.specs.Joining.{IsBefore, Linked, Unlinked};

// The position of the word before that of entry `place` in the chain of a region: the first word of the region, or the next word of its last
// entry before `place`.
fn word_before(last: usize, chains: &[u32], region: usize, place: usize) -> usize
    requires le_region { (1 ≤ region) × (region ≤ last) × (last + place < length chains.now) }
    requires by_index { (w : ℕ) → w < last + place → 0 < get_or chains.now w 0 → suc w < last + get_or chains.now w 0 }
    ensures upper_bound { result < last + place }
    ensures before { IsBefore last region place chains.now result }
{
    let mut at = region - 1;
    let mut x = chains[at] as usize;
    while 0 < x && x <= place {
        at = last + x - 1;
        x = chains[at] as usize;
    }
    at
}

// Entry `place`, which is in no chain, is taken into that of a region.
pub fn link(last: usize, chains: &mut [u32], region: usize, place: usize)
    requires le_region { (1 ≤ region) × (region ≤ last) × (last + place < length chains.old) × (place + 1 < 2 ^ 32) }
    requires by_index { (w : ℕ) → w < last + place → 0 < get_or chains.old w 0 → suc w < last + get_or chains.old w 0 }
    ensures { Linked last region place chains.old chains.new }
{
    let before = word_before(last, chains, region, place);
    chains[last + place] = chains[before];
    chains[before] = (place + 1) as u32;
}

// Entry `place` is taken out of the chain of its region.
pub fn unlink(last: usize, chains: &mut [u32], region: usize, place: usize)
    requires le_region { (1 ≤ region) × (region ≤ last) × (last + place < length chains.old) }
    requires by_index { (w : ℕ) → w < last + place → 0 < get_or chains.old w 0 → suc w < last + get_or chains.old w 0 }
    ensures { Unlinked last region place chains.old chains.new }
{
    let before = word_before(last, chains, region, place);
    chains[before] = chains[last + place];
    chains[last + place] = 0;
}
