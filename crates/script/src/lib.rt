// The text that the program reads and the text that it prints (01, "The program"): from bytes to the numbers of a line, and back.
// It knows nothing of the heap.
#![tactic(auto)]

pub mod blocks;
pub mod read;
pub mod write;

// What a line says: five numbers, or it is malformed.
pub type Line = Result<[u32; 5], Malformed>;

// Why a line says nothing: it is not five numbers.
#[derive(Clone, Copy)]
pub struct Malformed;

// A line of which some bytes are read, whatever its length. `first` to `fourth` are the last four of its complete numbers, and `number`
// is the one after them as far as it is read, once it has a digit. A line that is malformed stays so to its end, whatever else was read.
#[derive(Clone, Copy)]
pub struct Reader {
    first: u32,
    second: u32,
    third: u32,
    fourth: u32,
    complete: u32,
    number: Option<u32>,
    malformed: bool,
}

// What one more byte brings: the line goes on, or it has ended and the next byte begins another. Neither is an error or an absence, here
// and in the two enums below, so they are no Result and no Option.
#[derive(Clone, Copy)]
pub enum Step {
    More(Reader),
    Ended(Line),
}

// What the rest of a buffer brings: it ends inside a line, or a line ends in it, with the position after its line feed.
#[derive(Clone, Copy)]
pub enum Scan {
    Open(Reader),
    Found(Line, usize),
}

// What the rest of a buffer brings to a block of commands: all of it is read and the last line goes on, the block is full after the line
// that ends before this position, or a line is malformed. Each has the number of words that the block holds then.
#[derive(Clone, Copy)]
pub enum Filled {
    Done(Reader, usize),
    Full(usize, usize),
    Broken(usize),
}
