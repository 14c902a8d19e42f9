// Decoding, and the nine commands that neither end an epoch nor collect, on whole tables. Each promises `DidHere`: the rules' answer for the
// heap that the words made, and words that stand for the heap that the rules leave.
#![tactic(auto)]

use rules::Answer;

pub mod decode;
pub mod fields;
pub mod new;
pub mod obey;
pub mod store;
pub mod variables;

// A command whose operands are in range, its thread first.
#[derive(Clone, Copy)]
pub enum Decoded {
    Start(usize),
    End(u32),
    New(usize, usize, usize, usize),
    Copy(usize, usize, usize, usize),
    Clear(usize, usize),
    Load(usize, usize, usize, usize),
    Store(usize, usize, usize, usize),
    Read(usize, usize, usize),
    Write(usize, usize, usize, u32),
    Same(usize, usize, usize),
    Collect(u32),
}

// The answer to a command; or the thread of an end or of a collection, which are left to the caller. The thread is a u32 as the answer's words
// are: a usize beside them would keep every answer in memory, written as two words and read back as one.
#[derive(Clone, Copy)]
pub enum Obeyed {
    Answered(Answer),
    Ends(u32),
    Collects(u32),
}
