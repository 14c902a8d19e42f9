// The program's loop: it reads a script to its end and writes what the program prints for it. A read or a write that fails is told on
// standard error and ends it.
#![tactic(auto)]

ghost use Rattle.std.specs.Prelude.{◌+◌, ◌<◌, ◌≤◌, ◌≡◌, length};
ghost use Rattle.printed.specs.Pieces.{Machine};
ghost use Rattle.lines.specs.Held.{held, SameLent};
ghost use Rattle.stages.specs.Stages.{At, Placed, line_of};
ghost use Rattle.stream.specs.Turns.{Buffers, within, ending_of, goes_on, Advances, Turned, Serves};

use lines::Memory;
use stages::{Fed, Stage};
use std::io::{Read, Write};

// A piece of the input cannot be read.
#[derive(Clone, Copy)]
pub struct Unread;

// How many bytes were handed to the write, and whether it took them all: as many in either case, so this is no Result.
#[derive(Clone, Copy)]
pub struct Printed {
    pub length: usize,
    pub taken: bool,
}

// How a turn ends: the input goes on, nothing more is to be printed, or a read or a write failed.
#[derive(Clone, Copy)]
pub enum Ending {
    More,
    Finished,
    Unread,
    Unwritten,
}

// What a turn did: how it ended, the stage after it, the bytes of the piece that were fed and those that were handed to the write.
#[derive(Clone, Copy)]
pub struct Outcome {
    pub ending: Ending,
    pub stage: Stage,
    pub read: usize,
    pub printed: usize,
}

// How the loop ended, and how many bytes were fed and handed to the write in all.
#[derive(Clone, Copy)]
pub struct Served {
    pub ending: Ending,
    pub read: u64,
    pub printed: u64,
}

// Reads a piece to the start of a buffer: how many bytes it has, none at the input's end.
fn read_piece(rt: &impl Eprint, input: &mut impl Read, text: &mut [u8]) -> Result<usize, Unread>
    ensures { within result ≤ length text.new }
{
    match input.read(text) {
        Ok(n) => Ok(n),
        Err(_) => {
            let _ = eprintln!(rt; "taldreku: the input cannot be read");
            Err(Unread)
        }
    }
}

// Hands bytes to the write.
fn print(rt: &impl Eprint, output: &mut impl Write, bytes: &[u8]) -> Printed
    ensures { result.length ≡ length bytes.now }
{
    let taken = output.write_all(bytes).is_ok();
    if !taken {
        let _ = eprintln!(rt; "taldreku: the output cannot be written");
    }
    Printed {
        length: bytes.len(),
        taken,
    }
}

// Takes a piece on from a stage, an empty one as the end of the input, and writes what is to be printed to the start of a buffer.
fn advance(stage: Stage, piece: &[u8], memory: &mut Memory, out: &mut [u8]) -> Fed
    requires piece_len_bound { (length piece.now ≤ 16384) × (36084 ≤ length out.old) × (line_of stage + 16384 < 18446744073709551616) }
    requires placed { Placed stage (held memory.old) }
    ensures advances { (m : Machine) → At m stage (held memory.old) → Advances m piece.now (held memory.old) out.old result out.new (held memory.new) }
    ensures length_bound { result.length ≤ 36084 }
    ensures same_lent { SameLent memory.old memory.new }
{
    if piece.len() == 0 {
        Fed {
            stage: Stage::Stopped,
            length: closing::close(stage, memory, out),
        }
    } else {
        session::feed(stage, piece, memory, out)
    }
}

fn ending_at(stage: Stage, taken: bool) -> Ending
    ensures { result ≡ ending_of stage taken }
{
    if taken {
        if stages::is_stopped(stage) {
            Ending::Finished
        } else {
            Ending::More
        }
    } else {
        Ending::Unwritten
    }
}

fn goes_on(ending: Ending) -> bool
    ensures { result ≡ goes_on ending }
{
    match ending {
        Ending::More => true,
        Ending::Finished => false,
        Ending::Unread => false,
        Ending::Unwritten => false,
    }
}

// One piece of the input: it is read, fed, and what it prints is handed to the write.
fn turn(
    rt: &impl Eprint,
    input: &mut impl Read,
    output: &mut impl Write,
    stage: Stage,
    text: &mut [u8],
    memory: &mut Memory,
    out: &mut [u8],
) -> Outcome
    requires buffers { Buffers text.old out.old × (line_of stage + 16384 < 18446744073709551616) }
    requires placed { Placed stage (held memory.old) }
    ensures turned { Turned stage (held memory.old) out.old result text.new out.new (held memory.new) }
    ensures read_in_bounds { (result.read ≤ length text.new) × (result.printed ≤ 36084) }
    ensures same_lent { SameLent memory.old memory.new }
{
    let piece = read_piece(rt, input, text);
    match piece {
        Err(Unread) => Outcome {
            ending: Ending::Unread,
            stage: Stage::Stopped,
            read: 0,
            printed: 0,
        },
        Ok(n) => {
            let fed = advance(stage, &text[..n], memory, out);
            let length = fed.length;
            let next = fed.stage;
            let printed = print(rt, output, &out[..length]);
            Outcome {
                ending: ending_at(next, printed.taken),
                stage: next,
                read: n,
                printed: printed.length,
            }
        }
    }
}

// Piece after piece until the program stops. A proved loop has to end, and nothing says that an input does: so many turns are no input's.
fn go_on(
    rt: &impl Eprint,
    input: &mut impl Read,
    output: &mut impl Write,
    text: &mut [u8],
    memory: &mut Memory,
    out: &mut [u8],
) -> Served
    requires buffers { Buffers text.old out.old }
    ensures { Serves result }
{
    let mut stage = stages::start();
    let mut read: u64 = 0;
    let mut printed: u64 = 0;
    for _ in 0..281474976710656u64 {
        let done = turn(rt, input, output, stage, text, memory, out);
        read += done.read as u64;
        printed += done.printed as u64;
        let ending = done.ending;
        if !goes_on(ending) {
            return Served {
                ending,
                read,
                printed,
            };
        }
        stage = done.stage;
    }
    Served {
        ending: Ending::More,
        read,
        printed,
    }
}

// Reads the script that a reader gives and writes what the program prints for it.
pub fn serve(rt: &impl Eprint, input: &mut impl Read, output: &mut impl Write) -> Served
    ensures { Serves result }
{
    let mut text = [0u8; 16384];
    let mut cells = [0u32; 8192];
    let mut remember = [0u32; 2050];
    let mut tables = [0u32; 760];
    let mut chains = [0u32; 1153];
    let mut memory = Memory {
        cells: &mut cells,
        remember: &mut remember,
        tables: &mut tables,
        chains: &mut chains,
    };
    let mut out = [0u8; 36084];
    go_on(rt, input, output, &mut text, &mut memory, &mut out)
}
