// The epoch heap: run, the commands of a block, in order, on four lent slices.
#![tactic(auto)]

ghost use Rattle.std.specs.Prelude.{◌≡◌, ◌+◌, ◌*◌, ◌<◌, ◌≤◌, length};
ghost use Rattle.rules.specs.Refusals.{asked};
ghost use Rattle.layout.specs.Words.{words};
ghost use Rattle.chains.specs.Chains.{ChainsWhole, with_chains};
ghost use Rattle.promises.specs.Whole.{WholeFor};
ghost use Rattle.promises.specs.Slices.{slices};
ghost use Rattle.promises.specs.Promises.{DidHere, Ran, RunAsked, command_at};
ghost use Rattle.pages.specs.Noted.{Noted};

use commands::Obeyed;
use rules::{Answer, Command, Refusal, Sizes};

// One command: what `commands` answers, the end of an epoch, or a collection, to which its thread means nothing. The answer is two words, as C reads
// them and as the rules give it.
fn obey(
    p: Sizes,
    cells: &mut [u32],
    remember: &mut [u32],
    tables: &mut [u32],
    chains: &mut [u32],
    notes: &mut [u32],
    m: Command,
) -> Answer
    requires whole_for { WholeFor p (words cells.old remember.old tables.old) }
    requires chains_whole { ChainsWhole p remember.old chains.old }
    requires noted { Noted p tables.old notes.old }
    ensures did_here { DidHere p (words cells.old remember.old tables.old) m (words cells.new remember.new tables.new) result }
    ensures chains_after { chains.new ≡ with_chains p remember.new chains.old }
    ensures noted_2 { Noted p tables.new notes.new }
{
    let o = commands::obey::obey(p, cells, remember, tables, chains, notes, m);
    match o {
        Obeyed::Answered(a) => a,
        Obeyed::Ends(t) => Answer::from(epoch::end(
            p, cells, remember, tables, chains, notes, t as usize,
        )),
        Obeyed::Collects(_) => collect::collect(p, cells, remember, tables, chains, notes),
    }
}

// Command i of a block.
fn command_at(block: &[u32], i: usize) -> Command
    requires { (i < 2305843009213693952) × (5 * i + 5 ≤ length block.now) }
    ensures { result ≡ command_at block.now i }
{
    Command {
        code: block[5 * i],
        thread: block[5 * i + 1],
        a: block[5 * i + 2],
        b: block[5 * i + 3],
        c: block[5 * i + 4],
    }
}

// Command i of a block, obeyed.
fn obey_at(
    p: Sizes,
    cells: &mut [u32],
    remember: &mut [u32],
    tables: &mut [u32],
    chains: &mut [u32],
    notes: &mut [u32],
    block: &[u32],
    i: usize,
) -> Answer
    requires whole_for { WholeFor p (words cells.old remember.old tables.old) }
    requires chains_whole { ChainsWhole p remember.old chains.old }
    requires noted { Noted p tables.old notes.old }
    requires i_bound { (i < 2305843009213693952) × (5 * i + 5 ≤ length block.now) }
    ensures did_here { DidHere p (words cells.old remember.old tables.old) (command_at block.now i) (words cells.new remember.new tables.new) result }
    ensures chains_after { chains.new ≡ with_chains p remember.new chains.old }
    ensures noted_2 { Noted p tables.new notes.new }
{
    obey(
        p,
        cells,
        remember,
        tables,
        chains,
        notes,
        command_at(block, i),
    )
}

// The commands of a block, in order, each with its two answer words. The notes live as long as the block.
fn obey_block(
    cells: &mut [u32],
    remember: &mut [u32],
    tables: &mut [u32],
    chains: &mut [u32],
    block: &[u32],
    answers: &mut [u32],
)
    requires { RunAsked (slices cells.old remember.old tables.old chains.old) block.now answers.old 0 }
    ensures { Ran (slices cells.old remember.old tables.old chains.old) block.now answers.old 0 (slices cells.new remember.new tables.new chains.new) answers.new }
{
    let p = layout::read_sizes(tables);
    let mut notes = [0u32; 130];
    for i in 0..block.len() / 5 {
        let a = obey_at(p, cells, remember, tables, chains, &mut notes, block, i);
        answers[2 * i] = a.number;
        answers[2 * i + 1] = a.value;
    }
}

// Questions 3, 16, 4 and 5: the first that says no, if one does.
fn ask(
    cells: &[u32],
    remember: &[u32],
    tables: &[u32],
    chains: &[u32],
    block: &[u32],
    answers: &[u32],
) -> Result<(), Refusal>
    ensures { RunAsked (slices cells.now remember.now tables.now chains.now) block.now answers.now (asked result) }
{
    if !whole::whole(cells, remember, tables) {
        return Err(Refusal::NotWhole);
    }
    if !chains::chains_whole(layout::read_sizes(tables), remember, chains) {
        return Err(Refusal::Chains);
    }
    if block.len() % 5 != 0 {
        return Err(Refusal::Block);
    }
    if answers.len() < 2 * (block.len() / 5) {
        return Err(Refusal::Answers);
    }
    Ok(())
}

// Obeys the commands of a block and writes number and value for each. Gives 0; or on refusal, with slices and answers untouched, 3 for
// tables that are not whole, 16 for chains that are short or not those of the remember table, 4 for a block that is no multiple of five words,
// 5 for fewer than two answer words for each command. Words past the lengths, and the answer slice's extra words, never change.
pub fn taldreku_run(
    cells: &mut [u32],
    remember: &mut [u32],
    tables: &mut [u32],
    chains: &mut [u32],
    block: &[u32],
    answers: &mut [u32],
) -> u32
    ensures { Ran (slices cells.old remember.old tables.old chains.old) block.now answers.old result (slices cells.new remember.new tables.new chains.new) answers.new }
{
    if let Err(refusal) = ask(cells, remember, tables, chains, block, answers) {
        return refusal.number();
    }
    obey_block(cells, remember, tables, chains, block, answers);
    0
}
