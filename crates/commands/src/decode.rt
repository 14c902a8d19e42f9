// Questions 6, 7 and 8.
ghost use Rattle.std.specs.Prelude.{◌≡◌};
ghost use Rattle.commands.specs.Decoding.{checked_by, Decodes};

use crate::Decoded;
use rules::{Command, Refusal, Sizes};

// Questions 7 and 8.
fn checked(thread: bool, operands: bool, d: Decoded) -> Result<Decoded, Refusal>
    ensures { result ≡ checked_by thread operands (Ok d) }
{
    if !thread {
        return Err(Refusal::Thread);
    }
    if !operands {
        return Err(Refusal::Operand);
    }
    Ok(d)
}

// One arm for each of the eleven commands, with its operand rules. The sum b + c is one of usize and does not wrap.
pub fn decode(p: Sizes, m: Command) -> Result<Decoded, Refusal>
    ensures { Decodes p m result }
{
    let t = m.thread as usize;
    let a = m.a as usize;
    let b = m.b as usize;
    let c = m.c as usize;
    let known = t < p.threads;
    let var_a = a < p.variables;
    let var_b = b < p.variables;
    let var_c = c < p.variables;
    let no_b = b == 0;
    let no_c = c == 0;
    match m.code {
        1 => checked(known, a == 0 && no_b && no_c, Decoded::Start(t)),
        2 => checked(known, a == 0 && no_b && no_c, Decoded::End(m.thread)),
        3 => checked(
            known,
            var_a && b + c <= layout::cells::FIELDS,
            Decoded::New(t, a, b, c),
        ),
        4 => checked(
            known,
            var_a && var_b && c < p.threads,
            Decoded::Copy(t, a, b, c),
        ),
        5 => checked(known, var_a && no_b && no_c, Decoded::Clear(t, a)),
        6 => checked(known, var_a && var_b, Decoded::Load(t, a, b, c)),
        7 => checked(known, var_a && var_c, Decoded::Store(t, a, b, c)),
        8 => checked(known, var_a && no_c, Decoded::Read(t, a, b)),
        9 => checked(known, var_a, Decoded::Write(t, a, b, m.c)),
        10 => checked(known, var_a && var_b && no_c, Decoded::Same(t, a, b)),
        11 => checked(known, a == 0 && no_b && no_c, Decoded::Collect(m.thread)),
        _ => Err(Refusal::Code),
    }
}
