// The join of two regions (003, 2.2), by its four cases (02, W4).
#![tactic(auto)]

ghost use Rattle.std.specs.Prelude.{◌≡◌, ◌≤◌};
ghost use Rattle.rules.specs.Regions as regions;

use rules::{JoinCase, Sizes};

// In which of the four cases two regions stand, by thread and level.
#[tactic(auto, unfolding(rules::specs::Regions::join_case))]
pub fn join_case(p: Sizes, q: u32, r: u32) -> JoinCase
    requires { (1 ≤ p.depth) × (p.depth ≤ 8) }
    ensures { result ≡ regions.join_case p q r }
{
    if q < 2 || r < 2 {
        return JoinCase::WithControl;
    }
    let first = q as usize;
    let second = r as usize;
    if layout::regions::thread_of(p, first) != layout::regions::thread_of(p, second) {
        return JoinCase::TwoThreads;
    }
    if layout::regions::level_of(p, second) < layout::regions::level_of(p, first) {
        return JoinCase::SecondOuter;
    }
    JoinCase::FirstOuter
}

// The join, an arm for each case: the outer of two regions of one thread, else the control space.
#[tactic(auto, unfolding(rules::specs::Regions::join))]
pub fn join(p: Sizes, q: u32, r: u32) -> u32
    requires { (1 ≤ p.depth) × (p.depth ≤ 8) }
    ensures { result ≡ regions.join p q r }
{
    match join_case(p, q, r) {
        JoinCase::WithControl => 1,
        JoinCase::FirstOuter => q,
        JoinCase::SecondOuter => r,
        JoinCase::TwoThreads => 1,
    }
}
