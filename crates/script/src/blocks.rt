// Blocks of commands, five words each, from the bytes of a buffer, and the answers to a block as text.
ghost use Rattle.std.specs.Prelude.{◌≡◌, ◌+◌, ◌*◌, ◌<◌, ◌≤◌, length, drop};
ghost use Rattle.script.specs.Blocks.{Took, answer_line, stacked};
ghost use Rattle.script.specs.Writing.{Put};

use crate::read::{end, read_byte, start};
use crate::write::put_row;
use crate::{Filled, Reader};

// The commands of a buffer from a position on, behind the words that the block has already: up to the end of the buffer, until the
// block has no room for another, or to the first malformed line. The block is lent whole, since it is written behind the words that are used.
pub fn read_block(text: &[u8], from: usize, r: Reader, block: &mut [u32], used: usize) -> Filled
    requires { used + 5 ≤ length block.old }
    ensures { Took r (drop from text.now) from block.old used result block.new }
{
    let mut reader = r;
    let mut n = used;
    for at in from..text.len() {
        if text[at] != b'\n' {
            read_byte(&mut reader, text[at]);
        } else {
            let Ok(numbers) = end(reader) else {
                return Filled::Broken(n);
            };
            block[n..n + 5].copy_from_slice(&numbers);
            n += 5;
            reader = start();
            if block.len() < n + 5 {
                return Filled::Full(at + 1, n);
            }
        }
    }
    Filled::Done(reader, n)
}

// The answers to so many commands, a line each.
pub fn put_answers(out: &mut [u8], at: usize, answers: &[u32], count: usize) -> usize
    requires { (at + 22 * count ≤ length out.old) × (2 * count ≤ length answers.now) }
    ensures { Put out.old at (stacked (answer_line answers.now) count) out.new result × (result ≤ at + 22 * count) }
{
    let mut end = at;
    for i in 0..count {
        end = put_row(out, end, &[answers[2 * i], answers[2 * i + 1]]);
    }
    end
}
