// The fields of an object, references and numbers alike: codes 6, 8 and 9.
ghost use Rattle.std.specs.Prelude.{◌≡◌, ◌+◌, ◌-◌, ◌<◌, length, slice_index, slice_set};
ghost use Rattle.rules.specs.NeverFreeing.{used};
ghost use Rattle.rules.specs.Refusals.{asked, answer_of};
ghost use Rattle.layout.specs.Cells.{head_of, field_count, first_field, kind_at};
ghost use Rattle.layout.specs.Words.{words};
ghost use Rattle.promises.specs.Whole.{WholeFor};
ghost use Rattle.pages.specs.Noted.{NoneFreed};
ghost use Rattle.commands.specs.Fields.{NamesCell, Field};
ghost use Rattle.commands.specs.Does.{Does};
ghost use Rattle.commands.specs.declared.Decoded.TheVariants.{Load, Read, Write};

use crate::variables::{read_var, write_var};
use layout::Kind;
use rules::{Refusal, Sizes};

// Questions 9 and 10, of a reference x and field f of its object.
pub fn field_question(kind: Kind, cells: &[u32], x: u32, f: usize) -> Result<(), Refusal>
    requires { NamesCell x (length cells.now) }
    ensures { asked result ≡ used x f (field_count kind (head_of cells.now (x - 1))) }
{
    if x == 0 {
        return Err(Refusal::Null);
    }
    let head = layout::cells::head(cells, layout::cells::cell_named(x));
    if layout::cells::field_count(kind, head) <= f {
        return Err(Refusal::Field);
    }
    Ok(())
}

// Which of all fields of its object that is.
fn field_number(kind: Kind, cells: &[u32], x: u32, f: usize) -> usize
    requires { Field kind cells.now x f }
    ensures { result ≡ first_field kind (head_of cells.now (x - 1)) + f }
{
    let head = layout::cells::head(cells, layout::cells::cell_named(x));
    layout::cells::first_field(kind, head) + f
}

// Its position.
pub fn field_position(kind: Kind, cells: &[u32], x: u32, f: usize) -> usize
    requires { Field kind cells.now x f }
    ensures { result ≡ kind_at kind cells.now (x - 1) f }
{
    let i = field_number(kind, cells, x, f);
    layout::cells::field_at(layout::cells::cell_named(x), i)
}

pub fn read_field(kind: Kind, cells: &[u32], x: u32, f: usize) -> u32
    requires { Field kind cells.now x f }
    ensures { result ≡ slice_index cells.now (kind_at kind cells.now (x - 1) f) }
{
    let i = field_number(kind, cells, x, f);
    layout::cells::field(cells, layout::cells::cell_named(x), i)
}

pub fn write_field(kind: Kind, cells: &mut [u32], x: u32, f: usize, v: u32)
    requires { Field kind cells.old x f }
    ensures { cells.new ≡ slice_set cells.old (kind_at kind cells.old (x - 1) f) v }
{
    let i = field_number(kind, cells, x, f);
    layout::cells::set_field(cells, layout::cells::cell_named(x), i, v);
}

// Code 6: reference f of the object in variable b is loaded into variable a; value 1 for an object, 0 for null.
pub fn load(
    p: Sizes,
    cells: &[u32],
    remember: &[u32],
    tables: &mut [u32],
    t: usize,
    a: usize,
    b: usize,
    f: usize,
) -> Result<u32, Refusal>
    requires whole_for { WholeFor p (words cells.now remember.now tables.old) }
    requires t_lt_threads { (t < p.threads) × (a < p.variables) × (b < p.variables) }
    ensures does { Does p cells.now remember.now tables.old (Load t a b f) cells.now remember.now tables.new (answer_of result) }
    ensures none_freed { NoneFreed p tables.old tables.new }
{
    let x = read_var(p, tables, t, b);
    field_question(Kind::Reference, cells, x, f)?;
    let v = read_field(Kind::Reference, cells, x, f);
    write_var(p, tables, t, a, v);
    Ok(u32::from(v != 0))
}

// Code 8: the value is number f of the object in variable a.
pub fn read(
    p: Sizes,
    cells: &[u32],
    remember: &[u32],
    tables: &[u32],
    t: usize,
    a: usize,
    f: usize,
) -> Result<u32, Refusal>
    requires whole_for { WholeFor p (words cells.now remember.now tables.now) }
    requires t_lt_threads { (t < p.threads) × (a < p.variables) }
    ensures { Does p cells.now remember.now tables.now (Read t a f) cells.now remember.now tables.now (answer_of result) }
{
    let x = read_var(p, tables, t, a);
    field_question(Kind::Number, cells, x, f)?;
    Ok(read_field(Kind::Number, cells, x, f))
}

// Code 9: v becomes number f of the object in variable a.
pub fn write(
    p: Sizes,
    cells: &mut [u32],
    remember: &[u32],
    tables: &[u32],
    t: usize,
    a: usize,
    f: usize,
    v: u32,
) -> Result<u32, Refusal>
    requires whole_for { WholeFor p (words cells.old remember.now tables.now) }
    requires t_lt_threads { (t < p.threads) × (a < p.variables) }
    ensures { Does p cells.old remember.now tables.now (Write t a f v) cells.new remember.now tables.now (answer_of result) }
{
    let x = read_var(p, tables, t, a);
    field_question(Kind::Number, cells, x, f)?;
    write_field(Kind::Number, cells, x, f, v);
    Ok(0)
}
