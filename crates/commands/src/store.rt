// Code 7: a store, and the remember table, which stays exact, with its chains.
ghost use Rattle.std.specs.Prelude.{◌≡◌, ◌<◌};
ghost use Rattle.rules.specs.Refusals.{asked, answer_of};
ghost use Rattle.layout.specs.Words.{words};
ghost use Rattle.chains.specs.Chains.{ChainsWhole, with_chains};
ghost use Rattle.promises.specs.Whole.{WholeFor};
ghost use Rattle.commands.specs.Does.{Does};
ghost use Rattle.commands.specs.Storing.{Storing, Stored};
ghost use Rattle.commands.specs.declared.Decoded.TheVariants.{Store};

use crate::fields::{field_position, field_question, read_field, write_field};
use crate::variables::read_var;
use layout::Kind;
use linking::entries::remember_slot;
use remember::crossing::cross;
use rules::{Refusal, Sizes};

// Reference v goes into reference f of x's object, unless there is no room for its entry.
fn store_slot(
    p: Sizes,
    cells: &mut [u32],
    remember: &mut [u32],
    tables: &[u32],
    chains: &mut [u32],
    x: u32,
    f: usize,
    v: u32,
) -> Result<(), Refusal>
    requires storing { Storing p cells.old remember.old tables.now x f v }
    requires chains_whole { ChainsWhole p remember.old chains.old }
    ensures stored { Stored p cells.old remember.old tables.now x f v cells.new remember.new (asked result) }
    ensures chains_after { chains.new ≡ with_chains p remember.new chains.old }
{
    let page = layout::cells::page_of(layout::cells::cell_named(x));
    let from = layout::tables::owner(p, tables, page);
    let old = read_field(Kind::Reference, cells, x, f);
    let was = cross(p, tables, from, old);
    let will = cross(p, tables, from, v);
    let at = field_position(Kind::Reference, cells, x, f);
    remember_slot(p, remember, chains, at, was, will)?;
    write_field(Kind::Reference, cells, x, f, v);
    Ok(())
}

// Code 7: variable c is stored in reference f of the object in variable a.
pub fn store(
    p: Sizes,
    cells: &mut [u32],
    remember: &mut [u32],
    tables: &[u32],
    chains: &mut [u32],
    t: usize,
    a: usize,
    f: usize,
    c: usize,
) -> Result<u32, Refusal>
    requires whole_for { WholeFor p (words cells.old remember.old tables.now) }
    requires chains_whole { ChainsWhole p remember.old chains.old }
    requires t_lt_threads { (t < p.threads) × (a < p.variables) × (c < p.variables) }
    ensures does { Does p cells.old remember.old tables.now (Store t a f c) cells.new remember.new tables.now (answer_of result) }
    ensures chains_after { chains.new ≡ with_chains p remember.new chains.old }
{
    let x = read_var(p, tables, t, a);
    field_question(Kind::Reference, cells, x, f)?;
    let v = read_var(p, tables, t, c);
    store_slot(p, cells, remember, tables, chains, x, f, v)?;
    Ok(0)
}
