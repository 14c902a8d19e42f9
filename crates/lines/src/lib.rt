// What a line of a script does to the lent tables (01, "The program"): the first one prepares them; and the report as lines of text.
#![tactic(auto)]

ghost use Rattle.std.specs.Prelude.{ℕ, ◌+◌, ◌≤◌, List, length};
ghost use Rattle.rules.specs.declared.Sizes.{Sizes};
ghost use Rattle.rules.specs.Rules.{Regioned};
ghost use Rattle.layout.specs.Words.{words};
ghost use Rattle.promises.specs.Slices.{slices};
ghost use Rattle.promises.specs.StandsFor.{StandsFor};
ghost use Rattle.report.specs.Tables.{WholeTables, rows_in};
ghost use Rattle.script.specs.Writing.{Put};
ghost use Rattle.printed.specs.Printed.{rows_text, reported};
ghost use Rattle.lines.specs.Lines.{Here, Begun};
ghost use Rattle.lines.specs.Held.{held, SameLent};

pub mod lent;

pub use lent::Memory;
use rules::Sizes;
use script::{Line, Malformed};

// Prepares the tables if a line has sizes that are accepted.
pub fn prepare(line: Line, memory: &mut Memory) -> bool
    ensures begun { Begun line (held memory.old) result (held memory.new) }
    ensures same_lent { SameLent memory.old memory.new }
{
    match line {
        Ok(numbers) => {
            let [threads, variables, depth, pages, entries] = numbers;
            let number = prepare::taldreku_prepare(
                threads,
                variables,
                depth,
                pages,
                entries,
                memory.cells,
                memory.remember,
                memory.tables,
                memory.chains,
            );
            number == 0
        }
        Err(Malformed) => false,
    }
}

// The report's rows from a position on: at most 129, of 44 bytes at most.
fn put_rows(p: Sizes, tables: &[u32], out: &mut [u8], at: usize) -> usize
    requires { WholeTables p tables.now × (at + 5676 ≤ length out.old) }
    ensures { Put out.old at (rows_text (rows_in p tables.now)) out.new result × (result ≤ at + 5676) }
{
    let count = report::row_count(p, tables);
    let mut end = at;
    for k in 0..count {
        let row = report::row_at(p, tables, k);
        end = script::write::put_row(out, end, &[row.thread, row.level, row.objects, row.pages]);
    }
    end
}

// The report, from a position on: its rows, a line of 22 bytes at most and one of 33.
pub fn put_report(remember: &[u32], tables: &[u32], out: &mut [u8], at: usize) -> usize
    requires by_index { (cells : List ℕ) × (chains : List ℕ) × Here (slices cells remember.now tables.now chains) }
    requires at_in_bounds { at + 5731 ≤ length out.old }
    ensures put { (s : Sizes) (h : Regioned) (cells : List ℕ) (cell_of : ℕ → ℕ) → StandsFor s (words cells remember.now tables.now) h cell_of → Put out.old at (reported s h) out.new result }
    ensures upper_bound { result ≤ at + 5731 }
{
    let p = layout::read_sizes(tables);
    let end = put_rows(p, tables, out, at);
    let free = report::free_pages(p, tables);
    let last = script::write::put_row(out, end, &[free, report::crossing_slots(remember)]);
    let made = report::made(p, tables);
    let freed = report::freed(p, tables);
    let total = report::total(p, tables);
    script::write::put_row(out, last, &[made, freed, total])
}
