// The end of the input (01, "The program"): a line that has begun ends, and then comes the report or `sizes`.
#![tactic(auto)]

ghost use Rattle.std.specs.Prelude.{ℕ, ◌+◌, ◌<◌, ◌≤◌, List, length};
ghost use Rattle.promises.specs.Slices.{slices};
ghost use Rattle.script.specs.Writing.{Put};
ghost use Rattle.printed.specs.Printed.{ends_with};
ghost use Rattle.printed.specs.Pieces.{Machine};
ghost use Rattle.lines.specs.Held.{held, SameLent};
ghost use Rattle.stages.specs.Stages.{At, Placed, line_of, Closes};

use lines::Memory;
use stages::Stage;

// What is printed at the end of the input, after the last line.
fn put_end(stage: Stage, memory: &Memory, out: &mut [u8], at: usize) -> usize
    requires by_index { (cells : List ℕ) × (chains : List ℕ) × Placed stage (slices cells memory.now.remember.now memory.now.tables.now chains) }
    requires at_in_bounds { at + 5731 ≤ length out.old }
    ensures put { (m : Machine) (cells chains : List ℕ) → At m stage (slices cells memory.now.remember.now memory.now.tables.now chains) → Put out.old at (ends_with m.session) out.new result }
    ensures upper_bound { result ≤ at + 5731 }
{
    match stage {
        Stage::Opening(_) => script::write::put_sizes(out, at),
        Stage::Running(_, _) => lines::put_report(memory.remember, memory.tables, out, at),
        Stage::Stopped => at,
    }
}

// Ends the input: the missing line feed is put to a line that has begun, and what is printed then stands at the start of the buffer.
pub fn close(stage: Stage, memory: &mut Memory, out: &mut [u8]) -> usize
    requires in_bounds { (5779 ≤ length out.old) × (line_of stage + 1 < 18446744073709551616) }
    requires placed { Placed stage (held memory.old) }
    ensures closes { (m : Machine) → At m stage (held memory.old) → Closes m (held memory.old) out.old result out.new (held memory.new) }
    ensures upper_bound { result ≤ 5779 }
    ensures same_lent { SameLent memory.old memory.new }
{
    if stages::is_begun(stage) {
        let fed = session::feed(stage, b"\n", memory, out);
        let rest = fed.stage;
        put_end(rest, memory, out, fed.length)
    } else {
        put_end(stage, memory, out, 0)
    }
}
