// Reading, byte by byte.
ghost use Rattle.std.specs.Prelude.{◌≡◌, ◌+◌, ◌*◌, ◌<◌, drop};
ghost use Rattle.script.specs.Reading.{started, spoilt, spaced, digited, next_of, end_of, step_of, fresh, last_of, scanned};

use crate::{Line, Malformed, Reader, Scan, Step};

// The reader at the start of a line.
pub fn start() -> Reader
    ensures { result ≡ started }
{
    Reader {
        first: 0,
        second: 0,
        third: 0,
        fourth: 0,
        complete: 0,
        number: None,
        malformed: false,
    }
}

fn spoil() -> Reader
    ensures { result ≡ spoilt }
{
    Reader {
        malformed: true,
        ..start()
    }
}

// A space completes a number, which has a digit and is not the fifth.
#[tactic(auto, unfolding(crate::specs::Reading::spaced))]
fn read_space(r: &mut Reader)
    ensures { r.new ≡ spaced r.old }
{
    if let Some(number) = r.number {
        if r.complete < 4 {
            r.first = r.second;
            r.second = r.third;
            r.third = r.fourth;
            r.fourth = number;
            r.complete += 1;
            r.number = None;
            return;
        }
    }
    *r = spoil();
}

#[tactic(auto, unfolding(crate::specs::Reading::digited))]
fn read_digit(r: &mut Reader, digit: u8)
    requires { digit < 10 }
    ensures { r.new ≡ digited r.old digit }
{
    let value = 10 * r.number.unwrap_or(0) as u64 + digit as u64;
    if 4294967296 <= value {
        *r = spoil();
    } else {
        r.number = Some(value as u32);
    }
}

// One more byte of the line, not its line feed. The reader is changed in place: handed on by value it would be copied at each byte.
#[tactic(auto, unfolding(crate::specs::Reading::next_of))]
pub(crate) fn read_byte(r: &mut Reader, byte: u8)
    ensures { r.new ≡ next_of r.old byte }
{
    match byte {
        b' ' => read_space(r),
        b'0'..=b'9' => read_digit(r, byte - b'0'),
        _ => *r = spoil(),
    }
}

// The line ends here.
#[tactic(auto, unfolding(crate::specs::Reading::end_of))]
pub(crate) fn end(r: Reader) -> Line
    ensures { result ≡ end_of r }
{
    if let Some(number) = r.number {
        if !r.malformed && r.complete == 4 {
            return Ok([r.first, r.second, r.third, r.fourth, number]);
        }
    }
    Err(Malformed)
}

// One byte: the line goes on, or ends at a line feed.
#[tactic(auto, unfolding(crate::specs::Reading::step_of))]
pub fn step(r: Reader, byte: u8) -> Step
    ensures { result ≡ step_of r byte }
{
    if byte == 10 {
        Step::Ended(end(r))
    } else {
        let mut next = r;
        read_byte(&mut next, byte);
        Step::More(next)
    }
}

// No byte of the line is read yet.
#[tactic(auto, unfolding(crate::specs::Reading::fresh))]
fn is_fresh(r: Reader) -> bool
    ensures { result ≡ fresh r }
{
    !r.malformed && r.number.is_none() && r.complete == 0
}

// The end of the input: none, or a line that has begun ends here, since the last line feed may be missing.
#[tactic(auto, unfolding(crate::specs::Reading::last_of))]
pub fn finish(r: Reader) -> Option<Line>
    ensures { result ≡ last_of r }
{
    if is_fresh(r) { None } else { Some(end(r)) }
}

// The bytes of a buffer from a position on: up to the first line that ends among them, or all.
pub fn read_line(text: &[u8], from: usize, r: Reader) -> Scan
    ensures { result ≡ scanned r (drop from text.now) from }
{
    let mut reader = r;
    for at in from..text.len() {
        match step(reader, text[at]) {
            Step::More(next) => {
                reader = next;
            }
            Step::Ended(line) => {
                return Scan::Found(line, at + 1);
            }
        }
    }
    Scan::Open(reader)
}
