// One command, decoded and done.
ghost use Rattle.std.specs.Prelude.{◌≡◌};
ghost use Rattle.pages.specs.Noted.{Noted};
ghost use Rattle.layout.specs.Words.{words};
ghost use Rattle.chains.specs.Chains.{ChainsWhole, with_chains};
ghost use Rattle.promises.specs.Whole.{WholeFor};
ghost use Rattle.commands.specs.Obeys.{Obeys};

use crate::decode::decode;
use crate::fields::{load, read, write};
use crate::new::new_object;
use crate::store::store;
use crate::variables::{clear, copy, same, start};
use crate::{Decoded, Obeyed};
use rules::{Answer, Command, Sizes};

// Every command but an end and a collection is answered here; of these two, which change nothing yet, the thread is given. The notes are
// right of the tables (`Noted`, crate `pages`), and the chains are those of the remember table. The answer is two words, as C reads them.
pub fn obey(
    p: Sizes,
    cells: &mut [u32],
    remember: &mut [u32],
    tables: &mut [u32],
    chains: &mut [u32],
    notes: &mut [u32],
    m: Command,
) -> Obeyed
    requires whole_for { WholeFor p (words cells.old remember.old tables.old) }
    requires noted { Noted p tables.old notes.old }
    requires chains_whole { ChainsWhole p remember.old chains.old }
    ensures obeys { Obeys p cells.old remember.old tables.old m cells.new remember.new tables.new result }
    ensures noted_2 { Noted p tables.new notes.new }
    ensures chains_after { chains.new ≡ with_chains p remember.new chains.old }
{
    match decode(p, m) {
        Ok(Decoded::Start(t)) => Obeyed::Answered(start(p, cells, remember, tables, t).into()),
        Ok(Decoded::End(t)) => Obeyed::Ends(t),
        Ok(Decoded::New(t, a, b, c)) => Obeyed::Answered(new_object(
            p, cells, remember, tables, notes, t, a, b, c,
        ).into()),
        Ok(Decoded::Copy(t, a, b, c)) => Obeyed::Answered(copy(
            p, cells, remember, tables, t, a, b, c,
        ).into()),
        Ok(Decoded::Clear(t, a)) => Obeyed::Answered(clear(
            p, cells, remember, tables, t, a,
        ).into()),
        Ok(Decoded::Load(t, a, b, c)) => Obeyed::Answered(load(
            p, cells, remember, tables, t, a, b, c,
        ).into()),
        Ok(Decoded::Store(t, a, b, c)) => Obeyed::Answered(store(
            p, cells, remember, tables, chains, t, a, b, c,
        ).into()),
        Ok(Decoded::Read(t, a, b)) => Obeyed::Answered(read(
            p, cells, remember, tables, t, a, b,
        ).into()),
        Ok(Decoded::Write(t, a, b, c)) => Obeyed::Answered(write(
            p, cells, remember, tables, t, a, b, c,
        ).into()),
        Ok(Decoded::Same(t, a, b)) => Obeyed::Answered(same(
            p, cells, remember, tables, t, a, b,
        ).into()),
        Ok(Decoded::Collect(t)) => Obeyed::Collects(t),
        Err(refusal) => Obeyed::Answered(Answer::from(Err(refusal))),
    }
}
