// Writing: numbers and lines of numbers into a lent buffer, from a position on. Each function answers the position after what it wrote;
// the bytes around it stay. Its caller sees to the room, by writing the buffer out first.
ghost use Rattle.std.specs.Prelude.{◌+◌, ◌*◌, ◌<◌, ◌≤◌, ◌∷◌, [], ◌++◌, length};
ghost use Rattle.script.specs.Writing.{decimal, row, sizes_line, line_line, Put};

// A text whole.
fn put_bytes(out: &mut [u8], at: usize, text: &[u8]) -> usize
    requires { at + length text.now ≤ length out.old }
    ensures { Put out.old at text.now out.new result }
{
    let end = at + text.len();
    out[at..end].copy_from_slice(text);
    end
}

// A number in decimal, without leading zeros.
pub fn put_number(out: &mut [u8], at: usize, x: u64) -> usize
    requires { at + length (decimal x) ≤ length out.old }
    ensures { Put out.old at (decimal x) out.new result }
{
    let mut digits = [0u8; 20];
    let count = io::decimal(x, &mut digits);
    put_bytes(out, at, &digits[..count])
}

// A number and the byte after it.
fn put_then(out: &mut [u8], at: usize, x: u64, after: u8) -> usize
    requires { at + length (decimal x) + 1 ≤ length out.old }
    ensures { Put out.old at (decimal x ++ (after ∷ [])) out.new result }
{
    let end = put_number(out, at, x);
    out[end] = after;
    end + 1
}

// A line of numbers, of which each takes eleven bytes at most with the byte behind it.
pub fn put_row(out: &mut [u8], at: usize, numbers: &[u32]) -> usize
    requires { (0 < length numbers.now) × (at + 11 * length numbers.now ≤ length out.old) }
    ensures { Put out.old at (row numbers.now) out.new result }
{
    let last = numbers.len() - 1;
    let mut end = at;
    for x in &numbers[..last] {
        end = put_then(out, end, *x as u64, 32);
    }
    put_then(out, end, numbers[last] as u64, 10)
}

// `sizes`: the first line is missing, malformed or out of range.
pub fn put_sizes(out: &mut [u8], at: usize) -> usize
    requires { at + 6 ≤ length out.old }
    ensures { Put out.old at sizes_line out.new result }
{
    put_bytes(out, at, b"sizes\n")
}

// `line k`: line k is not five numbers.
pub fn put_line(out: &mut [u8], at: usize, k: u64) -> usize
    requires { at + 26 ≤ length out.old }
    ensures { Put out.old at (line_line k) out.new result }
{
    let number = put_bytes(out, at, b"line ");
    put_then(out, number, k, 10)
}
