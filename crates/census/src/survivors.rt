// How many survivors there are: the bits that are set in the working words of the listed pages.
ghost use Rattle.std.specs.Prelude.{◌≡◌, ℕ, ◌<◌, length};
ghost use Rattle.lists.specs.Part.{Rises, Off};
ghost use Rattle.layout.specs.Places.{Room, mark_of};
ghost use Rattle.mark.specs.Marks.{Small};
ghost use Rattle.census.specs.Survivors.{survivors_in};

use rules::Sizes;

pub fn count_survivors(p: Sizes, tables: &[u32], list: &[u32]) -> u32
    requires room { Room p (length tables.now) }
    requires rises { Rises p.pages (length list.now) list.now }
    requires by_index { (page : ℕ) → page < p.pages → Off list.now (length list.now) page → mark_of p tables.now page ≡ 0 }
    requires small { Small p tables.now }
    ensures { result ≡ survivors_in p tables.now p.pages }
{
    let mut k = 0;
    for page in list {
        k += layout::tables::mark(p, tables, *page as usize).count_ones();
    }
    k
}
