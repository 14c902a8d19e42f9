// The chains after an end.
ghost use Rattle.std.specs.Prelude.{◌≡◌, List, ℕ};
ghost use Rattle.chains.specs.Chains.{with_chains};
ghost use Rattle.settle.specs.Renew.{ChainsRenewed};

use rules::Sizes;

// The chains of the table as it is now. Where no entry was of an own slot (`own` is `used`, how many there were) and `from` are left, those from
// there on went, and all pointed into the region: only its chain goes. Else the chains are written anew.
pub fn renew_chains(
    p: Sizes,
    remember: &[u32],
    chains: &mut [u32],
    region: u32,
    from: usize,
    own: usize,
    used: usize,
)
    requires { (m : List ℕ) × ChainsRenewed p region from own used m remember.now chains.old }
    ensures { chains.new ≡ with_chains p remember.now chains.old }
{
    if own == used && layout::remember::used(remember) as usize == from {
        let last = layout::regions::last_region(p);
        layout::chains::set_first(chains, region as usize, 0);
        layout::clear(chains, last + from, last + used);
    } else {
        chains::rebuild(p, remember, chains);
    }
}
