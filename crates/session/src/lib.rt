// The program between its input and its output (01, "The program"): it is fed the input piece by piece, and writes what is to be printed
// into a lent buffer. Nothing here reads or writes a file.
#![tactic(auto)]

ghost use Rattle.std.specs.Prelude.{◌+◌, ◌<◌, ◌≤◌, length};
ghost use Rattle.printed.specs.Printed.{opening};
ghost use Rattle.printed.specs.Pieces.{Machine, machine};
ghost use Rattle.lines.specs.Held.{held, SameLent};
ghost use Rattle.stages.specs.Stages.{At, Placed, line_of, Feeds, most_printed, Room};

use lines::Memory;
use script::{Reader, Scan};
use stages::{Fed, Stage};

// The first line, and then the commands of the same piece.
fn begin(reader: Reader, text: &[u8], memory: &mut Memory, out: &mut [u8]) -> Fed
    requires room { Room text.now out.old }
    ensures feeds { Feeds (machine reader opening) text.now (held memory.old) out.old result out.new (held memory.new) }
    ensures length_bound { result.length ≤ most_printed (length text.now) }
    ensures same_lent { SameLent memory.old memory.new }
{
    let scan = script::read::read_line(text, 0, reader);
    match scan {
        Scan::Open(rest) => Fed {
            stage: Stage::Opening(rest),
            length: 0,
        },
        Scan::Found(line, at) => {
            if lines::prepare(line, memory) {
                answers::obey(script::read::start(), 2, text, at, memory, out)
            } else {
                Fed {
                    stage: Stage::Stopped,
                    length: script::write::put_sizes(out, 0),
                }
            }
        }
    }
}

// Takes a piece of the input, of 16,384 bytes at most, on from a stage, and writes what it prints to the start of a buffer.
pub fn feed(stage: Stage, text: &[u8], memory: &mut Memory, out: &mut [u8]) -> Fed
    requires room { Room text.now out.old × (line_of stage + length text.now < 18446744073709551616) }
    requires placed { Placed stage (held memory.old) }
    ensures feeds { (m : Machine) → At m stage (held memory.old) → Feeds m text.now (held memory.old) out.old result out.new (held memory.new) }
    ensures length_bound { result.length ≤ most_printed (length text.now) }
    ensures same_lent { SameLent memory.old memory.new }
{
    match stage {
        Stage::Opening(reader) => begin(reader, text, memory, out),
        Stage::Running(reader, line) => answers::obey(reader, line, text, 0, memory, out),
        Stage::Stopped => Fed {
            stage: Stage::Stopped,
            length: 0,
        },
    }
}
