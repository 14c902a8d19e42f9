// The command lines of a piece (01, "The program"): they are obeyed as one block, and a line is written for each answer.
#![tactic(auto)]

ghost use Rattle.std.specs.Prelude.{ℕ, ◌+◌, ◌*◌, ◌/◌, ◌<◌, ◌≤◌, length, take, drop};
ghost use Rattle.rules.specs.declared.Sizes.{Sizes};
ghost use Rattle.rules.specs.Rules.{Regioned};
ghost use Rattle.chains.specs.Chains.{ChainsWhole};
ghost use Rattle.promises.specs.StandsFor.{StandsFor};
ghost use Rattle.printed.specs.Printed.{running};
ghost use Rattle.printed.specs.Pieces.{machine};
ghost use Rattle.lines.specs.Lines.{Here, Holds};
ghost use Rattle.lines.specs.Held.{held, SameLent};
ghost use Rattle.stages.specs.Stages.{Feeds, most_printed, Room};
ghost use Rattle.answers.specs.Answers.{Answered, Counted};

use lines::Memory;
use script::Reader;
use stages::Fed;

// Obeys the commands in the first `used` words of a block, at most 1,639, and writes a line for each answer.
fn answer(memory: &mut Memory, block: &[u32], used: usize, out: &mut [u8]) -> usize
    requires counted { Counted used block.now out.old }
    requires here { Here (held memory.old) }
    ensures by_index { (s : Sizes) (h : Regioned) → (cell_of : ℕ → ℕ) → StandsFor s (held memory.old).words h cell_of → ChainsWhole s memory.old.remember.now memory.old.chains.now → Answered s h (take used block.now) (held memory.old) out.old result out.new (held memory.new) }
    ensures upper_bound { result ≤ 22 * (used / 5) }
    ensures same_lent { SameLent memory.old memory.new }
{
    let mut answers = [0u32; 3278];
    heap::taldreku_run(
        memory.cells,
        memory.remember,
        memory.tables,
        memory.chains,
        &block[..used],
        &mut answers,
    );
    script::blocks::put_answers(out, 0, &answers, used / 5)
}

// Obeys the commands of a piece from a position on, of which line `line` is the first, as one block. It has room for the 1,639 commands
// that a piece of 16,384 bytes can have, and for another.
pub fn obey(
    reader: Reader,
    line: u64,
    text: &[u8],
    from: usize,
    memory: &mut Memory,
    out: &mut [u8],
) -> Fed
    requires room { Room text.now out.old × (line + length text.now < 18446744073709551616) }
    requires here { Here (held memory.old) }
    ensures feeds { (s : Sizes) (h : Regioned) → Holds (running s h line) (held memory.old) → Feeds (machine reader (running s h line)) (drop from text.now) (held memory.old) out.old result out.new (held memory.new) }
    ensures length_bound { result.length ≤ most_printed (length text.now) }
    ensures same_lent { SameLent memory.old memory.new }
{
    let mut block = [0u32; 8200];
    let filled = script::blocks::read_block(text, from, reader, &mut block, 0);
    let used = stages::words_in(filled);
    let end = answer(memory, &block, used, out);
    stages::proceed(filled, line, end, out)
}
