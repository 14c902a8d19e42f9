// Where the program stands between two pieces of its input (01, "The program"), and how it goes on after a block of commands.
#![tactic(auto)]

ghost use Rattle.std.specs.Prelude.{◌≡◌, ◌+◌, ◌/◌, ◌<◌, ◌≤◌, not, length};
ghost use Rattle.script.specs.Reading.{started, fresh};
ghost use Rattle.script.specs.BlocksLaws.{used_in};
ghost use Rattle.stages.specs.declared.Stage.TheVariants.{Opening};
ghost use Rattle.stages.specs.Stages.{stopped_at, begun_at, Proceeds};

use script::{Filled, Reader};

// Where the program stands between two pieces of its input: it waits for the sizes, or the line of this number is the next, or a line
// has stopped it. A line may have begun.
#[derive(Clone, Copy)]
pub enum Stage {
    Opening(Reader),
    Running(Reader, u64),
    Stopped,
}

// The stage after a piece, and how many bytes are to be printed.
#[derive(Clone, Copy)]
pub struct Fed {
    pub stage: Stage,
    pub length: usize,
}

// Before the first byte.
pub fn start() -> Stage
    ensures { result ≡ Opening started }
{
    Stage::Opening(script::read::start())
}

// Whether a line has stopped the program.
pub fn is_stopped(stage: Stage) -> bool
    ensures { result ≡ stopped_at stage }
{
    match stage {
        Stage::Opening(_) => false,
        Stage::Running(_, _) => false,
        Stage::Stopped => true,
    }
}

// Whether a line has begun.
fn has_begun(reader: Reader) -> bool
    ensures { result ≡ not (fresh reader) }
{
    script::read::finish(reader).is_some()
}

pub fn is_begun(stage: Stage) -> bool
    ensures { result ≡ begun_at stage }
{
    match stage {
        Stage::Opening(reader) => has_begun(reader),
        Stage::Running(reader, _) => has_begun(reader),
        Stage::Stopped => false,
    }
}

// How many words a block holds.
pub fn words_in(filled: Filled) -> usize
    ensures { result ≡ used_in filled }
{
    match filled {
        Filled::Done(_, used) => used,
        Filled::Full(_, used) => used,
        Filled::Broken(used) => used,
    }
}

// Takes the program on after a block, of which line `line` is the first and whose answers end at `end`: a malformed line is told after them.
pub fn proceed(filled: Filled, line: u64, end: usize, out: &mut [u8]) -> Fed
    requires { (line + used_in filled / 5 < 18446744073709551616) × (end + 26 ≤ length out.old) }
    ensures proceeds { Proceeds filled (line + used_in filled / 5) end out.old result out.new }
    ensures length_bound { result.length ≤ end + 26 }
{
    let next = line + (words_in(filled) / 5) as u64;
    match filled {
        Filled::Done(rest, _) => Fed {
            stage: Stage::Running(rest, next),
            length: end,
        },
        Filled::Broken(_) => Fed {
            stage: Stage::Stopped,
            length: script::write::put_line(out, end, next),
        },
        // never taken: the block has room for a command more than a piece can have
        Filled::Full(_, _) => Fed {
            stage: Stage::Stopped,
            length: 0,
        },
    }
}
