// The worst case of an end: one list of many objects, linked backwards and held by a variable, so that all of them survive. A line for
// each list: its objects, the two words that the end answers, and the links followed in a walk of the list afterwards. There are 1,024
// pages: the 8,176 objects of the first list, 511 pages, are moved; the 16,000 of the second, 1,000 pages, are too many for 24 free pages.
#![tactic(auto)]

ghost use Rattle.std.specs.Prelude.{◌+◌, ◌*◌, ◌<◌, ◌≤◌, ◌≡◌, length};
ghost use Rattle.promises.specs.Slices.{slices};
ghost use Rattle.long_list.specs.Repeated.{Filled, is_answer, answers_of, Repeated, Obeyed};

use rules::Answer;
use std::io;

// The block repeats the commands.
fn fill(block: &mut [u32], commands: &[u32])
    requires { 0 < length commands.now }
    ensures { Filled commands.now block.old block.new (length block.old) }
{
    for (i, word) in block.iter_mut().enumerate() {
        *word = commands[i % commands.len()];
    }
}

// Whether answer i has this number and this value.
#[tactic(auto, unfolding(crate::specs::Repeated::is_answer))]
fn is_answer(answers: &[u32], number: u32, value: u32, i: usize) -> bool
    requires { 2 * i + 1 < length answers.now }
    ensures { result ≡ is_answer answers.now number value i }
{
    answers[2 * i] == number && answers[2 * i + 1] == value
}

// How many answers have this number and this value.
fn count(answers: &[u32], number: u32, value: u32) -> usize
    ensures { result ≡ answers_of answers.now number value }
{
    // a filter over the numbers and its count: tried, and its proof did not close
    let mut n: usize = 0;
    for i in 0..answers.len() / 2 {
        if is_answer(answers, number, value, i) {
            n += 1;
        }
    }
    n
}

// Runs a block 16 times; how many answers had this number and this value.
fn run_all(
    cells: &mut [u32],
    remember: &mut [u32],
    tables: &mut [u32],
    chains: &mut [u32],
    block: &[u32],
    answers: &mut [u32],
    number: u32,
    value: u32,
) -> usize
    requires { length answers.old ≤ 6000 }
    ensures { Repeated block.now number value (slices cells.old remember.old tables.old chains.old) answers.old 16 (slices cells.new remember.new tables.new chains.new) answers.new result }
{
    let mut n: usize = 0;
    for _ in 0..16u32 {
        heap::taldreku_run(cells, remember, tables, chains, block, answers);
        n += count(answers, number, value);
    }
    n
}

// A command of thread 0 that has no operands.
fn obey(
    cells: &mut [u32],
    remember: &mut [u32],
    tables: &mut [u32],
    chains: &mut [u32],
    code: u32,
) -> Answer
    ensures { Obeyed (slices cells.old remember.old tables.old chains.old) code (slices cells.new remember.new tables.new chains.new) result }
{
    let mut answers = [1u32; 2];
    heap::taldreku_run(
        cells,
        remember,
        tables,
        chains,
        &[code, 0, 0, 0, 0],
        &mut answers,
    );
    Answer {
        number: answers[0],
        value: answers[1],
    }
}

fn say(rt: &impl Print, objects: usize, end: Answer, links: usize) -> io::Result<()> {
    let Answer { number, value } = end;
    println!(rt; "{objects} objects, end {number} {value}, {links} links")
}

// Makes a list in an epoch, ends the epoch and walks the list: the new object is in variable 1, the head of the list in variable 0. The
// walk has as many loads as commands made the list, and those past the last object are refused.
fn list(
    rt: &impl Print,
    cells: &mut [u32],
    remember: &mut [u32],
    tables: &mut [u32],
    chains: &mut [u32],
    block: &mut [u32],
    answers: &mut [u32],
) -> io::Result<()>
    requires { length answers.old ≤ 6000 }
{
    prepare::taldreku_prepare(1, 4, 1, 1024, 0, cells, remember, tables, chains);
    obey(cells, remember, tables, chains, 1);
    fill(block, &[3, 0, 1, 1, 0, 7, 0, 1, 0, 0, 4, 0, 0, 1, 0]);
    let made = run_all(cells, remember, tables, chains, block, answers, 0, 0);
    let end = obey(cells, remember, tables, chains, 2);
    fill(block, &[6, 0, 0, 0, 0]);
    let links = run_all(cells, remember, tables, chains, block, answers, 0, 1);
    say(rt, made / 3, end, links)
}

fn main(rt: HostRuntime) -> io::Result<()> {
    let mut cells = [0u32; 262144];
    let mut remember = [0u32; 2];
    let mut tables = [0u32; 3086];
    let mut chains = [0u32; 2];
    let mut block = [0u32; 7665];
    let mut answers = [1u32; 3066];
    list(
        &rt,
        &mut cells,
        &mut remember,
        &mut tables,
        &mut chains,
        &mut block,
        &mut answers,
    )?;
    let mut longer = [0u32; 15000];
    let mut room = [1u32; 6000];
    list(
        &rt,
        &mut cells,
        &mut remember,
        &mut tables,
        &mut chains,
        &mut longer,
        &mut room,
    )
}
