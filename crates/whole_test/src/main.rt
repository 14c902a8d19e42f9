// Runs the check of lent tables on fresh tables, on tables of a heap in use and on damaged ones, one damage or more for each condition
// of 01's paragraph on whole tables and of 02, W1 and W2, and writes a line for each.
#![tactic(auto)]

ghost use Rattle.std.specs.Prelude.{◌/◌, ◌≡◌, length, set};
ghost use Rattle.whole_test.specs.Changed.{changed};

use std::io;

// Word `at` becomes x, where there is such a word.
fn put(words: &mut [u32], at: usize, x: u32)
    ensures { words.new ≡ set words.old at x }
{
    if at < words.len() {
        words[at] = x;
    }
}

fn say(rt: &impl Print, name: &str, accepted: bool) -> io::Result<()> {
    let verdict = if accepted { "accepted" } else { "refused" };
    println!(rt; "{name} {verdict}")
}

// Changes are pairs: a position, and the word that it becomes.
fn change(words: &mut [u32], changes: &[u32])
    ensures { words.new ≡ changed words.old changes.now (length changes.now / 2) }
{
    for pair in changes.chunks_exact(2) {
        put(words, pair[0] as usize, pair[1]);
    }
}

// Checks the tables and writes the line.
fn check(
    rt: &impl Print,
    name: &str,
    cells: &[u32],
    remember: &[u32],
    tables: &[u32],
) -> io::Result<()> {
    say(rt, name, whole::whole(cells, remember, tables))
}

// What prepare leaves for T 2, V 2, D 2, P 2, N 2; and slices that are a word too short, or empty.
fn fresh(rt: &impl Print) -> io::Result<()> {
    let cells = [0u32; 512];
    let remember: [u32; 6] = [2, 0, 0, 0, 0, 0];
    let tables: [u32; 24] = [
        2, 2, 2, 2, 2, 0, 0, 0, 0, 0, 0, 0, 0, 0, 0, 0, 0, 0, 0, 0, 0, 0, 0, 0,
    ];
    check(rt, "fresh", &cells, &remember, &tables)?;
    check(rt, "cells too short", &cells[..511], &remember, &tables)?;
    check(
        rt,
        "remember table too short",
        &cells,
        &remember[..5],
        &tables,
    )?;
    check(rt, "tables too short", &cells, &remember, &tables[..23])?;
    check(rt, "tables without sizes", &cells, &remember, &tables[..4])?;
    check(
        rt,
        "remember table without N",
        &cells,
        &remember[..0],
        &tables,
    )?;
    check(rt, "no words", &cells[..0], &remember[..0], &tables[..0])
}

// What prepare leaves for the smallest sizes.
fn smallest(rt: &impl Print) -> io::Result<()> {
    let cells = [0u32; 256];
    let remember: [u32; 2] = [0, 0];
    let tables: [u32; 14] = [1, 1, 1, 1, 0, 0, 0, 0, 0, 0, 0, 0, 0, 0];
    check(rt, "fresh and smallest", &cells, &remember, &tables)
}

// The heap in use: T 2, V 2, D 2, P 4, N 2. Thread 0 has one epoch open, so region 2 is open. Page 0 is the control space's: cell 0 has
// one reference, to cell 16, and one number; cell 1 has no field. Page 1 is region 2's: cell 16 has one reference, to cell 0. Variables 0
// and 1 of thread 0 name cells 0 and 16. So the slot at word 2 crosses into region 2. Of 5 objects made, 2 are freed. The slices are longer
// than asked, and the words past the three lengths are not zero. It is changed as asked, and checked.
fn attempt(
    rt: &impl Print,
    name: &str,
    cells_changes: &[u32],
    remember_changes: &[u32],
    tables_changes: &[u32],
) -> io::Result<()> {
    let mut cells = [0u32; 1040];
    let mut remember: [u32; 8] = [2, 1, 2, 0, 2, 0, 7, 7];
    let mut tables: [u32; 32] = [
        2, 2, 2, 4, 2, 1, 0, 1, 17, 0, 0, 1, 2, 0, 0, 2, 1, 0, 0, 0, 0, 0, 0, 2, 1, 0, 0, 0, 5, 2,
        7, 7,
    ];
    let words: [u32; 12] = [0, 17, 2, 17, 3, 77, 256, 16, 258, 1, 1024, 7];
    change(&mut cells, &words);
    change(&mut cells, cells_changes);
    change(&mut remember, remember_changes);
    change(&mut tables, tables_changes);
    check(rt, name, &cells, &remember, &tables)
}

// Changes of one of the three.
fn attempt_cells(rt: &impl Print, name: &str, changes: &[u32]) -> io::Result<()> {
    attempt(rt, name, changes, &[], &[])
}

fn attempt_remember(rt: &impl Print, name: &str, changes: &[u32]) -> io::Result<()> {
    attempt(rt, name, &[], changes, &[])
}

fn attempt_tables(rt: &impl Print, name: &str, changes: &[u32]) -> io::Result<()> {
    attempt(rt, name, &[], &[], changes)
}

// Sizes in range.
fn threads(rt: &impl Print) -> io::Result<()> {
    attempt_tables(rt, "in use", &[])?;
    attempt_tables(rt, "no thread", &[0, 0])?;
    attempt_tables(rt, "17 threads", &[0, 17])?;
    attempt_tables(rt, "4294967295 threads", &[0, 4294967295])
}

fn variables_and_levels(rt: &impl Print) -> io::Result<()> {
    attempt_tables(rt, "no variable", &[1, 0])?;
    attempt_tables(rt, "33 variables", &[1, 33])?;
    attempt_tables(rt, "no level", &[2, 0])?;
    attempt_tables(rt, "9 levels", &[2, 9])
}

// Pages and entries, and N the same in both places.
fn pages_and_entries(rt: &impl Print) -> io::Result<()> {
    attempt_tables(rt, "no page", &[3, 0])?;
    attempt_tables(rt, "1025 pages", &[3, 1025])?;
    attempt(rt, "4097 entries", &[], &[0, 4097], &[4, 4097])?;
    attempt_remember(rt, "another N in the remember table", &[0, 3])
}

// Depths, and the owners of pages.
fn owners(rt: &impl Print) -> io::Result<()> {
    attempt_tables(rt, "a depth above D", &[6, 3])?;
    attempt_tables(rt, "a page of a closed region", &[5, 0])?;
    attempt_tables(rt, "a page of no region", &[12, 6])?;
    attempt_tables(rt, "a used page without cells", &[13, 1])
}

// Cells in use on a page, and partly filled pages.
fn used(rt: &impl Print) -> io::Result<()> {
    attempt_tables(rt, "a page of 17 cells", &[15, 17, 23, 17, 28, 20])?;
    attempt_tables(rt, "a free page with a cell", &[17, 1])?;
    attempt_tables(rt, "two partly filled pages", &[13, 1, 17, 1, 23, 3, 28, 6])?;
    attempt_tables(
        rt,
        "a full page and a partly filled one",
        &[13, 1, 15, 16, 17, 1, 23, 17, 28, 20],
    )
}

// Object counts, and working words of pages.
fn counts(rt: &impl Print) -> io::Result<()> {
    attempt_tables(rt, "an object too many", &[23, 3, 28, 6])?;
    attempt_tables(rt, "an object in a closed region", &[27, 1, 28, 6])?;
    attempt_tables(rt, "a working word of a page", &[22, 1])
}

// Objects made, word 28, and objects freed, word 29: 3 more are made than freed, also where made has passed 4,294,967,295 and starts anew.
fn counters(rt: &impl Print) -> io::Result<()> {
    attempt_tables(rt, "an object made that is not there", &[28, 6])?;
    attempt_tables(rt, "an object freed that is there", &[29, 3])?;
    attempt_tables(rt, "made and freed the other way round", &[28, 2, 29, 5])?;
    attempt_tables(rt, "nothing freed", &[28, 3, 29, 0])
}

fn wrapped_counters(rt: &impl Print) -> io::Result<()> {
    attempt_tables(rt, "made less than freed", &[28, 1, 29, 4294967294])?;
    attempt_tables(
        rt,
        "made less than freed by one too many",
        &[28, 0, 29, 4294967294],
    )?;
    attempt_tables(rt, "made 4294967295", &[28, 4294967295, 29, 4294967292])?;
    attempt_tables(rt, "freed 4294967295", &[28, 2, 29, 4294967295])
}

// References.
fn variables(rt: &impl Print) -> io::Result<()> {
    attempt_tables(rt, "a variable of a cell not in use", &[9, 3])?;
    attempt_tables(rt, "a variable of a free page", &[9, 33])?;
    attempt_tables(rt, "a variable past the cells", &[10, 65])?;
    attempt_tables(rt, "a variable 4294967295", &[10, 4294967295])
}

fn references(rt: &impl Print) -> io::Result<()> {
    attempt_cells(rt, "a reference to a cell not in use", &[258, 3])?;
    attempt_cells(rt, "a reference 4294967295", &[258, 4294967295])
}

// The form of cells in use, and their working words.
fn fields(rt: &impl Print) -> io::Result<()> {
    attempt_cells(rt, "15 fields", &[16, 240])?;
    attempt_cells(rt, "14 fields", &[16, 14])?;
    attempt_cells(rt, "word 0 of 4294967295", &[16, 4294967295])
}

fn words(rt: &impl Print) -> io::Result<()> {
    attempt_cells(rt, "a word after the fields", &[4, 1])?;
    attempt_cells(rt, "any number", &[3, 4294967295])?;
    attempt_cells(rt, "a working word of a cell", &[17, 1])
}

// Cells that are not in use: those of pages 2 and 3, which are free, and on page 0 those from cell 2 on.
fn free_pages(rt: &impl Print) -> io::Result<()> {
    attempt_cells(rt, "the first word of a free page", &[512, 1])?;
    attempt_cells(rt, "the last word of a free page", &[1023, 2147483648])
}

fn cells_not_in_use(rt: &impl Print) -> io::Result<()> {
    attempt_cells(rt, "word 0 of a cell not in use", &[32, 1])?;
    attempt_cells(rt, "word 1 of a cell not in use", &[33, 1])?;
    attempt_cells(rt, "the last word of a cell not in use", &[47, 1])
}

// The remember table.
fn entries_used(rt: &impl Print) -> io::Result<()> {
    attempt_remember(
        rt,
        "a crossing slot that no entry names",
        &[1, 0, 2, 0, 4, 0],
    )?;
    attempt_remember(rt, "more entries used than there are", &[1, 3])?;
    attempt_remember(rt, "an entry twice", &[1, 2, 3, 2, 5, 2])
}

fn entries(rt: &impl Print) -> io::Result<()> {
    attempt_remember(rt, "an entry with the wrong region", &[4, 3])?;
    attempt_remember(
        rt,
        "an entry for a slot that does not cross",
        &[1, 2, 3, 258, 5, 1],
    )?;
    attempt_remember(rt, "an entry for a number", &[2, 3])?;
    attempt_remember(rt, "an entry past the cells", &[2, 4294967295])
}

fn entries_not_used(rt: &impl Print) -> io::Result<()> {
    attempt_remember(rt, "a slot in an entry not used", &[3, 7])?;
    attempt_remember(rt, "a region in an entry not used", &[5, 2])
}

fn two_crossing_slots(rt: &impl Print) -> io::Result<()> {
    attempt(
        rt,
        "two crossing slots",
        &[16, 16, 18, 17],
        &[1, 2, 3, 18, 5, 2],
        &[],
    )?;
    attempt(
        rt,
        "two crossing slots in falling order",
        &[16, 16, 18, 17],
        &[1, 2, 2, 18, 3, 2, 5, 2],
        &[],
    )?;
    attempt(
        rt,
        "one of two crossing slots twice",
        &[16, 16, 18, 17],
        &[1, 2, 2, 18, 3, 18, 5, 2],
        &[],
    )
}

fn main(rt: HostRuntime) -> io::Result<()> {
    fresh(&rt)?;
    smallest(&rt)?;
    threads(&rt)?;
    variables_and_levels(&rt)?;
    pages_and_entries(&rt)?;
    owners(&rt)?;
    used(&rt)?;
    counts(&rt)?;
    counters(&rt)?;
    wrapped_counters(&rt)?;
    variables(&rt)?;
    references(&rt)?;
    fields(&rt)?;
    words(&rt)?;
    free_pages(&rt)?;
    cells_not_in_use(&rt)?;
    entries_used(&rt)?;
    entries(&rt)?;
    entries_not_used(&rt)?;
    two_crossing_slots(&rt)
}
