// Made less freed is the sum of the object counts (02, W2).
ghost use Rattle.std.specs.Prelude.{◌≡◌, length};
ghost use Rattle.lists.specs.Says.{Says};
ghost use Rattle.layout.specs.Places.{Room};
ghost use Rattle.layout.specs.Words.{tables_only};
ghost use Rattle.promises.specs.Whole.{live_of, CountersWhole};
ghost use Rattle.whole.specs.Regions.{RegionsWhole};

use rules::Sizes;

// The objects of all regions, by their counts.
pub fn live_objects(p: Sizes, tables: &[u32]) -> usize
    requires { Room p (length tables.now) }
    ensures { result ≡ live_of p tables.now }
{
    let last = layout::regions::last_region(p);
    let mut live: usize = 0;
    for g in 1..=last {
        live += layout::tables::count(p, tables, g) as usize;
    }
    live
}

// Where the counts agree with the pages, there are fewer objects than 4,294,967,296: the difference is their number, and not only
// modulo that.
pub fn counters_whole(p: Sizes, tables: &[u32]) -> bool
    requires room { Room p (length tables.now) }
    requires regions_whole { RegionsWhole p tables.now }
    ensures { Says result (CountersWhole p (tables_only tables.now)) }
{
    let made = layout::tables::made(p, tables);
    let freed = layout::tables::freed(p, tables);
    std::num::wrapping_sub_u32(made, freed) as usize == live_objects(p, tables)
}
