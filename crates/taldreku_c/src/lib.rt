// The library for C, which include/taldreku.h declares: each function that C calls, exported under its name, with the promises of the function
// of a library that it calls.
#![tactic(auto)]

ghost use Rattle.std.specs.Prelude.{◌≡◌};
ghost use Rattle.layout.specs.Lengths.{cells_length, remember_length, tables_length, chains_length};
ghost use Rattle.promises.specs.Slices.{slices};
ghost use Rattle.promises.specs.Promises.{Prepared, Ran};
ghost use Rattle.prepare.specs.Prepare.{sizes};
ghost use Rattle.report.specs.Report.{Told};

use report::{Reported, Row};

#[unsafe(no_mangle)]
pub extern "C" fn taldreku_cells_length(pages: u32) -> u32
    ensures { result ≡ cells_length pages }
{
    layout::lengths::taldreku_cells_length(pages)
}

#[unsafe(no_mangle)]
pub extern "C" fn taldreku_remember_length(entries: u32) -> u32
    ensures { result ≡ remember_length entries }
{
    layout::lengths::taldreku_remember_length(entries)
}

#[unsafe(no_mangle)]
pub extern "C" fn taldreku_tables_length(
    threads: u32,
    variables: u32,
    depth: u32,
    pages: u32,
) -> u32
    ensures { result ≡ tables_length threads variables depth pages }
{
    layout::lengths::taldreku_tables_length(threads, variables, depth, pages)
}

#[unsafe(no_mangle)]
pub extern "C" fn taldreku_chains_length(threads: u32, depth: u32, entries: u32) -> u32
    ensures { result ≡ chains_length threads depth entries }
{
    layout::lengths::taldreku_chains_length(threads, depth, entries)
}

#[unsafe(no_mangle)]
pub extern "C" fn taldreku_prepare(
    threads: u32,
    variables: u32,
    depth: u32,
    pages: u32,
    entries: u32,
    cells: &mut [u32],
    remember: &mut [u32],
    tables: &mut [u32],
    chains: &mut [u32],
) -> u32
    ensures { Prepared (sizes threads variables depth pages entries) (slices cells.old remember.old tables.old chains.old) result (slices cells.new remember.new tables.new chains.new) }
{
    prepare::taldreku_prepare(
        threads, variables, depth, pages, entries, cells, remember, tables, chains,
    )
}

#[unsafe(no_mangle)]
pub extern "C" fn taldreku_run(
    cells: &mut [u32],
    remember: &mut [u32],
    tables: &mut [u32],
    chains: &mut [u32],
    block: &[u32],
    answers: &mut [u32],
) -> u32
    ensures { Ran (slices cells.old remember.old tables.old chains.old) block.now answers.old result (slices cells.new remember.new tables.new chains.new) answers.new }
{
    heap::taldreku_run(cells, remember, tables, chains, block, answers)
}

#[unsafe(no_mangle)]
pub extern "C" fn taldreku_report(
    cells: &[u32],
    remember: &[u32],
    tables: &[u32],
    chains: &[u32],
    rows: &mut [Row],
) -> Reported
    ensures { Told (slices cells.now remember.now tables.now chains.now) rows.old result rows.new }
{
    report::lent::taldreku_report(cells, remember, tables, chains, rows)
}
