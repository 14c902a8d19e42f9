// A place is made for an entry, or closed: the words after it move by one place, and all are renumbered. They are renumbered as they move, up from
// the last and down from the first: `copy_within` and `renumber` would go over them twice.
ghost use Rattle.std.specs.Prelude.{◌≡◌, ℕ, ◌+◌, ◌^◌, ◌≤◌, ◌<◌, length, get_or};
ghost use Rattle.linking.specs.Shifting.{raised, lowered, Opened, Closed};
ghost use Rattle.linking.specs.Moving.{MovedUp, MovedDown};

// A word, when the entries from `place` on stand one place higher.
fn number_up(place: usize, x: u32) -> u32
    requires { x + 1 < 2 ^ 32 }
    ensures { result ≡ raised place x }
{
    if place < x as usize { x + 1 } else { x }
}

// A word, when the entries after `place` stand one place lower.
fn number_down(place: usize, x: u32) -> u32
    ensures { result ≡ lowered place x }
{
    if place < x as usize { x - 1 } else { x }
}

// Each word becomes its number.
fn renumber<F: Fn(u32) -> u32>(words: &mut [u32], number: F)
    requires { (j : ℕ) → j < length words.old → F.pre number (get_or words.old j 0) }
    ensures { (j : ℕ) → j < length words.old → F.post number (get_or words.old j 0) (get_or words.new j 0) }
{
    for word in words {
        *word = number(*word);
    }
}

// The words `from` up to `to` move up, renumbered; the word at `to` is lost.
fn move_up(words: &mut [u32], place: usize, from: usize, to: usize)
    requires from_le_to { (from ≤ to) × (to < length words.old) }
    requires by_index { (j : ℕ) → j < to → get_or words.old j 0 + 1 < 2 ^ 32 }
    ensures { MovedUp (raised place) from to words.old words.new }
{
    for i in (from..to).rev() {
        words[i + 1] = number_up(place, words[i]);
    }
}

// The words after `from`, up to `to`, move down, renumbered; the word at `from` is lost.
fn move_down(words: &mut [u32], place: usize, from: usize, to: usize)
    requires { (from < to) × (to ≤ length words.old) }
    ensures { MovedDown (lowered place) from to words.old words.new }
{
    for i in from + 1..to {
        words[i - 1] = number_down(place, words[i]);
    }
}

// A place is made among `used` entries for one that is in no chain yet.
pub fn open_place(last: usize, used: usize, chains: &mut [u32], place: usize)
    requires place_le_used { (place ≤ used) × (last + used < length chains.old) }
    requires by_index { (j : ℕ) → j < last + used → get_or chains.old j 0 + 1 < 2 ^ 32 }
    ensures { Opened last (last + used) place chains.old chains.new }
{
    move_up(chains, place, last + place, last + used);
    chains[last + place] = 0;
    renumber(&mut chains[..last + place], |x| number_up(place, x));
}

// An entry that is in no chain any more goes, and `used` are left.
pub fn close_place(last: usize, used: usize, chains: &mut [u32], place: usize)
    requires { (place ≤ used) × (last + used < length chains.old) }
    ensures { Closed last (last + used) place chains.old chains.new }
{
    renumber(&mut chains[..last + place], |x| number_down(place, x));
    move_down(chains, place, last + place, last + used + 1);
    chains[last + used] = 0;
}
