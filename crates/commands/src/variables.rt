// Variables and depths: codes 1, 4, 5 and 10.
ghost use Rattle.std.specs.Prelude.{◌≡◌, ◌+◌, ◌<◌, length, slice_set};
ghost use Rattle.rules.specs.Refusals.{answer_of};
ghost use Rattle.layout.specs.Words.{words};
ghost use Rattle.layout.specs.Places.{Room};
ghost use Rattle.promises.specs.Whole.{WholeFor};
ghost use Rattle.pages.specs.Noted.{NoneFreed};
ghost use Rattle.commands.specs.ThreadVariables.{variable, variable_at};
ghost use Rattle.commands.specs.Does.{Does};
ghost use Rattle.commands.specs.declared.Decoded.TheVariants.{Start, Copy, Clear, Same};

use rules::{Refusal, Sizes};

// Variable a of thread t.
pub fn read_var(p: Sizes, tables: &[u32], t: usize, a: usize) -> u32
    requires room { Room p (length tables.now) }
    requires t_lt_threads { (t < p.threads) × (a < p.variables) }
    ensures { result ≡ variable p tables.now t a }
{
    let i = layout::tables::var_number(p, t, a);
    layout::tables::var(p, tables, i)
}

pub fn write_var(p: Sizes, tables: &mut [u32], t: usize, a: usize, x: u32)
    requires room { Room p (length tables.old) }
    requires t_lt_threads { (t < p.threads) × (a < p.variables) }
    ensures { tables.new ≡ slice_set tables.old (variable_at p t a) x }
{
    let i = layout::tables::var_number(p, t, a);
    layout::tables::set_var(p, tables, i, x);
}

// Code 1: the depth of thread t rises by one.
pub fn start(
    p: Sizes,
    cells: &[u32],
    remember: &[u32],
    tables: &mut [u32],
    t: usize,
) -> Result<u32, Refusal>
    requires whole_for { WholeFor p (words cells.now remember.now tables.old) }
    requires t_lt_threads { t < p.threads }
    ensures does { Does p cells.now remember.now tables.old (Start t) cells.now remember.now tables.new (answer_of result) }
    ensures none_freed { NoneFreed p tables.old tables.new }
{
    let d = layout::tables::depth(p, tables, t);
    if p.depth <= d as usize {
        return Err(Refusal::Depth);
    }
    layout::tables::set_depth(p, tables, t, d + 1);
    Ok(0)
}

// Code 4: variable b of thread c is copied to variable a of thread t.
pub fn copy(
    p: Sizes,
    cells: &[u32],
    remember: &[u32],
    tables: &mut [u32],
    t: usize,
    a: usize,
    b: usize,
    c: usize,
) -> Result<u32, Refusal>
    requires whole_for { WholeFor p (words cells.now remember.now tables.old) }
    requires t_lt_threads { (t < p.threads) × (a < p.variables) × (b < p.variables) × (c < p.threads) }
    ensures does { Does p cells.now remember.now tables.old (Copy t a b c) cells.now remember.now tables.new (answer_of result) }
    ensures none_freed { NoneFreed p tables.old tables.new }
{
    let x = read_var(p, tables, c, b);
    write_var(p, tables, t, a, x);
    Ok(0)
}

// Code 5: variable a becomes null.
pub fn clear(
    p: Sizes,
    cells: &[u32],
    remember: &[u32],
    tables: &mut [u32],
    t: usize,
    a: usize,
) -> Result<u32, Refusal>
    requires whole_for { WholeFor p (words cells.now remember.now tables.old) }
    requires t_lt_threads { (t < p.threads) × (a < p.variables) }
    ensures does { Does p cells.now remember.now tables.old (Clear t a) cells.now remember.now tables.new (answer_of result) }
    ensures none_freed { NoneFreed p tables.old tables.new }
{
    write_var(p, tables, t, a, 0);
    Ok(0)
}

// Code 10: do variables a and b hold the same object, or are both null?
pub fn same(
    p: Sizes,
    cells: &[u32],
    remember: &[u32],
    tables: &[u32],
    t: usize,
    a: usize,
    b: usize,
) -> Result<u32, Refusal>
    requires whole_for { WholeFor p (words cells.now remember.now tables.now) }
    requires t_lt_threads { (t < p.threads) × (a < p.variables) × (b < p.variables) }
    ensures { Does p cells.now remember.now tables.now (Same t a b) cells.now remember.now tables.now (answer_of result) }
{
    let x = read_var(p, tables, t, a);
    let y = read_var(p, tables, t, b);
    Ok(u32::from(x == y))
}
