// Code 3: an object is made in its thread's innermost open region, in the control space if none is open.
ghost use Rattle.std.specs.Prelude.{◌≡◌, ◌+◌, ◌<◌, ◌≤◌, length, slice_set};
ghost use Rattle.rules.specs.Regions.{region_at};
ghost use Rattle.rules.specs.Rules.{counted};
ghost use Rattle.rules.specs.Refusals.{answer_of};
ghost use Rattle.layout.specs.Places.{Room, depth_of, made_at, made_of};
ghost use Rattle.layout.specs.Cells.{most_fields};
ghost use Rattle.layout.specs.Words.{words};
ghost use Rattle.promises.specs.Whole.{WholeFor};
ghost use Rattle.pages.specs.Noted.{Noted};
ghost use Rattle.commands.specs.Does.{Does};
ghost use Rattle.commands.specs.declared.Decoded.TheVariants.{New};

use crate::variables::write_var;
use rules::{Refusal, Sizes};

// The region that thread t makes objects in.
fn innermost(p: Sizes, tables: &[u32], t: usize) -> u32
    requires room { Room p (length tables.now) }
    requires t_lt_threads { (t < p.threads) × (depth_of tables.now t ≤ p.depth) }
    ensures { result ≡ region_at p t (depth_of tables.now t) }
{
    let d = layout::tables::depth(p, tables, t);
    layout::regions::region_at(p, t, d as usize)
}

// One object more is made.
fn count_made(p: Sizes, tables: &mut [u32])
    requires { Room p (length tables.old) }
    ensures { tables.new ≡ slice_set tables.old (made_at p) (counted (made_of p tables.old + 1)) }
{
    let made = layout::tables::made(p, tables);
    layout::tables::set_made(p, tables, made.wrapping_add(1));
}

// Code 3: a new object with b references and c numbers in variable a. It takes the first unused cell of its region's partly filled page,
// else of the highest-numbered free page; if there is neither, there are no pages. A cell that is not in use holds zero words, so word 0
// alone is written.
pub fn new_object(
    p: Sizes,
    cells: &mut [u32],
    remember: &[u32],
    tables: &mut [u32],
    notes: &mut [u32],
    t: usize,
    a: usize,
    b: usize,
    c: usize,
) -> Result<u32, Refusal>
    requires whole_for { WholeFor p (words cells.old remember.now tables.old) }
    requires noted { Noted p tables.old notes.old }
    requires t_lt_threads { (t < p.threads) × (a < p.variables) × (b + c ≤ most_fields) }
    ensures does { Does p cells.old remember.now tables.old (New t a b c) cells.new remember.now tables.new (answer_of result) }
    ensures noted_2 { Noted p tables.new notes.new }
{
    let region = innermost(p, tables, t);
    let page = pages::page_for(p, tables, notes, region).ok_or(Refusal::Pages)?;
    let cell = pages::take_cell(p, tables, page, region);
    count_made(p, tables);
    layout::cells::set_head(cells, cell, layout::cells::head_word(b, c));
    write_var(p, tables, t, a, layout::cells::ref_to(cell));
    Ok(0)
}
