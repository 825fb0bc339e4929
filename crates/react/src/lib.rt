// One reaction on a state: its word and memory after a letter, the stopped set after it, and the order to each module.
// The stopped set is a flag for each of the program's modules, in their order. Nothing is refused here: callers ask `possible` first, and see to
// the table, the word and the room.
#![tactic(auto)]

ghost use Rattle.std.specs.Prelude.{◌≡◌, ℕ, ◌<◌};
ghost use Rattle.paper.specs.Running.{runs_l};
ghost use Rattle.paper.specs.Rewriting.{completion};
ghost use Rattle.paper.specs.Reaction as rules;
ghost use Rattle.rewrite.specs.Steps.{letter_of, state, Stands};
ghost use Rattle.react.specs.States.{Modules, state_of, flags_of, Running, Told, Ready, Fits, Comes};

use rewrite::{Letter, Memory};
use words::Unit;

// A state beside its word: where the word starts, the memory, and a flag for each module.
#[derive(Clone, Copy)]
pub struct State {
    pub start: usize,
    pub memory: Memory,
    pub stopped: [u8; 8],
}

// What a reaction leaves: the state, and the order to each module.
#[derive(Clone, Copy)]
pub struct Reacted {
    pub state: State,
    pub orders: [u8; 8],
}

// The order to each module, and the stopped set afterwards.
#[derive(Clone, Copy)]
pub struct Ordered {
    pub orders: [u8; 8],
    pub stopped: [u8; 8],
}

// Which modules run in the word that starts at s, a flag for each of a to z: one pass over its units.
pub fn running_letters(p: &[u8], w: &[usize], s: usize) -> [bool; 26]
    requires { Stands p.now w.now s }
    ensures { Running result (state p.now w.now s) }
{
    let mut flags = [false; 26];
    for &unit in &w[s..] {
        if let Unit::Module(m) = Unit::of(unit) {
            flags[m] = true;
        }
    }
    flags
}

// 1 for each of the modules that runs, in their order; zeros behind.
pub fn runs_flags(p: &[u8], modules: &[u8], w: &[usize], s: usize) -> [u8; 8]
    requires { Stands p.now w.now s × Modules modules.now }
    ensures { result ≡ flags_of (λ (m : ℕ). runs_l m (state p.now w.now s)) modules.now }
{
    let runs = running_letters(p, w, s);
    let mut flags = [0u8; 8];
    for (i, &m) in modules.iter().enumerate() {
        flags[i] = u8::from(runs[usize::from(m)]);
    }
    flags
}

// Whether a letter can be reacted to: a completion only of a module that runs, events always.
pub fn possible(p: &[u8], w: &[usize], s: usize, letter: Letter) -> bool
    requires { Stands p.now w.now s × ((m : ℕ) → letter_of letter ≡ completion m → m < 256) }
    ensures { (x : rules.State) → x.left ≡ state p.now w.now s → result ≡ rules.possible (letter_of letter) x }
{
    match letter {
        Letter::Completion(m) => words::running(p, w, s, m),
        Letter::Occurrence(_) => true,
    }
}

// Whether a letter is the module's own completion.
fn is_own(letter: Letter, m: usize) -> bool
    ensures { result ≡ rules.is_own (letter_of letter) m }
{
    match letter {
        Letter::Completion(a) => a == m,
        Letter::Occurrence(_) => false,
    }
}

// The order to each module and the stopped set after a letter, by which modules ran before and run after.
fn give_orders(
    modules: &[u8],
    letter: Letter,
    before: &[bool; 26],
    after: &[bool; 26],
    stopped: [u8; 8],
) -> Ordered
    requires { Modules modules.now }
    ensures { Told modules.now (letter_of letter) before.now after.now stopped result }
{
    let mut orders = [0u8; 8];
    let mut next = [0u8; 8];
    for (i, &name) in modules.iter().enumerate() {
        let m = usize::from(name);
        let own = is_own(letter, m);
        let ran = before[m];
        let runs = after[m];
        let held = stopped[i] == 1;
        orders[i] = rewrite::order(own, ran, runs, held);
        next[i] = u8::from(rewrite::stays(own, ran, runs, held));
    }
    Ordered {
        orders,
        stopped: next,
    }
}

// One reaction: the state after a letter, and the orders. At the end the stopped set is emptied, after the orders are worked out.
// Ruled out (must-fail/): a completed module that is resumed, a state that is left as it is.
pub fn react(
    p: &[u8],
    modules: &[u8],
    w: &mut [usize],
    state: State,
    tmp: &mut [usize],
    letter: Letter,
    fugitive: bool,
) -> Reacted
    requires { Ready p.now modules.now w.old state tmp.old (letter_of letter) }
    ensures { (q : rules.Program) → Fits q modules.now (letter_of letter) fugitive → Comes p.now w.new modules.now result (rules.reaction q (letter_of letter) (state_of p.now w.old modules.now state)) }
{
    let before = running_letters(p, w, state.start);
    let next = rewrite::advance(p, w, state.start, tmp, state.memory, letter, fugitive);
    let start = next.start;
    let after = running_letters(p, w, start);
    let Ordered { orders, stopped } = give_orders(modules, letter, &before, &after, state.stopped);
    let stopped = if start == 96 { [0; 8] } else { stopped };
    Reacted {
        state: State {
            start,
            memory: next.memory,
            stopped,
        },
        orders,
    }
}
