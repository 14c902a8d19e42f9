// The report in a lent list of rows, also from C.
ghost use Rattle.std.specs.Prelude.{◌≡◌, ◌<◌, ◌≤◌, length};
ghost use Rattle.layout.specs.Places.{sizes_at};
ghost use Rattle.layout.specs.Words.{depths_at};
ghost use Rattle.promises.specs.Slices.{slices};
ghost use Rattle.report.specs.Report.{refusing, Told};
ghost use Rattle.report.specs.Opened.{Next};
ghost use Rattle.report.specs.Tables.{WholeTables, row_in, rows_in};
ghost use Rattle.report.specs.Lent.{RegionOf, Asking, reported, written};

use crate::{Reported, Row, next_open, row_count, row_of};
use rules::Refusal;

// The result of a refusal, as C reads it: no row is to be written.
fn refused(number: u32) -> Reported
    ensures { result ≡ refusing number }
{
    Reported {
        number,
        rows: 0,
        free_pages: 0,
        crossing_slots: 0,
        made: 0,
        freed: 0,
        total: 0,
    }
}

// Questions 3, 16 and 15, of a list of so many rows: the first that says no, or the figures.
fn ask(
    cells: &[u32],
    remember: &[u32],
    tables: &[u32],
    chains: &[u32],
    room: usize,
) -> Result<Reported, Refusal>
    ensures { Asking (slices cells.now remember.now tables.now chains.now) room (reported result) }
{
    if !whole::whole(cells, remember, tables) {
        return Err(Refusal::NotWhole);
    }
    let p = layout::read_sizes(tables);
    if !chains::chains_whole(p, remember, chains) {
        return Err(Refusal::Chains);
    }
    let rows = row_count(p, tables);
    if room < rows {
        return Err(Refusal::Rows);
    }
    Ok(Reported {
        number: 0,
        rows: rows as u32,
        free_pages: crate::free_pages(p, tables),
        crossing_slots: crate::crossing_slots(remember),
        made: crate::made(p, tables),
        freed: crate::freed(p, tables),
        total: crate::total(p, tables),
    })
}

// The row of a region, and the next open region, by the sizes that the tables name.
fn row_in(tables: &[u32], region: usize) -> Row
    requires { RegionOf tables.now region }
    ensures { result ≡ row_in (sizes_at tables.now) tables.now region }
{
    row_of(layout::read_sizes(tables), tables, region)
}

fn open_after(tables: &[u32], region: usize) -> usize
    requires { RegionOf tables.now region }
    ensures { Next (sizes_at tables.now) (depths_at (sizes_at tables.now) tables.now) region result }
{
    next_open(layout::read_sizes(tables), tables, region)
}

// The rows are written, as many as there are to write.
fn fill(rows: &mut [Row], tables: &[u32])
    requires { (length rows.old ≤ length (rows_in (sizes_at tables.now) tables.now)) × (0 < length rows.old → WholeTables (sizes_at tables.now) tables.now) }
    ensures { rows.new ≡ written (rows_in (sizes_at tables.now) tables.now) (length rows.old) rows.old }
{
    let mut region: usize = 1;
    for row in rows {
        *row = row_in(tables, region);
        region = open_after(tables, region);
    }
}

// Writes a row for the control space and each open region, by region number. Gives 0 with how many these are, free pages, crossing
// slots, and objects made, freed and there; or on refusal, with no row written and the other words 0, 3 for tables that are not whole, 16 for
// chains that are short or not those of the remember table, 15 for too few rows. Spare rows never change.
pub fn taldreku_report(
    cells: &[u32],
    remember: &[u32],
    tables: &[u32],
    chains: &[u32],
    rows: &mut [Row],
) -> Reported
    ensures { Told (slices cells.now remember.now tables.now chains.now) rows.old result rows.new }
{
    match ask(cells, remember, tables, chains, rows.len()) {
        Ok(reported) => {
            fill(&mut rows[..reported.rows as usize], tables);
            reported
        }
        Err(refusal) => refused(refusal.number()),
    }
}
