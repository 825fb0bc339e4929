// Whether a word of units is a state's: one pass from its end, with the weights of the terms that are there so far.
// What a unit weighs is answered as an Option: none for a unit that may not stand where it does.
#![tactic(auto)]

ghost use Rattle.std.specs.Prelude.{◌≡◌, List, ℕ, ◌+◌, ◌≤◌, ◌<◌, ◌↔◌, OnSome, length, drop, get_or};
ghost use Rattle.paper.specs.Lists.{has};
ghost use Rattle.paper.specs.Term.{Term, One};
ghost use Rattle.laws.specs.Nodes.{tree};
ghost use Rattle.laws.specs.Weight.{weight};
ghost use Rattle.words.specs.Word.{u_seq, u_star, u_act, u_wait, mark, arity, hd, terms};
ghost use Rattle.words.specs.Pieces.{Asks, Src, top};
ghost use Rattle.walk.specs.Judging.{Tells, Weighted, Known, Sound, Judged, Stacked, Behind};

use arrayvec::ArrayVec;
use program::Node;
use words::Unit;

// Whether m is one of the modules.
fn is_module(modules: &[u8], m: usize) -> bool
    ensures { result ≡ has m modules.now }
{
    modules.iter().any(|&name| usize::from(name) == m)
}

// Whether the term whose word starts at i is that of node j, which is written into tmp to be compared.
fn is_node(p: &[u8], j: usize, w: &[usize], i: usize, tmp: &mut [usize]) -> bool
    requires { Asks p.now j 96 (length tmp.old) × (Src p.now w.now i × (length w.now ≡ 96)) }
    ensures { Tells result (top p.now w.now i ≡ tree p.now j) }
{
    let a = words::expand(p, j, tmp, 96);
    let z = words::skip(p, w, i);
    words::same(w, i, z, tmp, a, 96)
}

// A term that weighs a, followed by node y.
fn weigh_seq(p: &[u8], weights: &[u8], y: usize, a: usize) -> Option<usize>
    requires { Weighted p.now weights.now × ((y < 192) × (a ≤ 96)) }
    ensures { (ms : List ℕ) (ts : List Term) → 1 ≤ length ts → a ≡ weight (hd ts) → Judged p.now ms (u_seq y) ts result }
{
    if y < words::count(p) && words::node_at(p, y).is_term() {
        Some((a.max(1) + 1).max(usize::from(weights[y])))
    } else {
        None
    }
}

// The starred node j before a part that weighs a and starts at i.
fn weigh_star(
    p: &[u8],
    weights: &[u8],
    j: usize,
    w: &[usize],
    i: usize,
    tmp: &mut [usize],
    a: usize,
) -> Option<usize>
    requires { Weighted p.now weights.now × ((j < 192) × ((a ≤ 96) × (Src p.now w.now i × ((length w.now ≡ 96) × ((length tmp.old ≡ 96) × (a ≡ weight (top p.now w.now i))))))) }
    ensures { (ms : List ℕ) → Judged p.now ms (u_star j) (terms p.now (drop i w.now)) result }
{
    if words::count(p) <= j {
        return None;
    }
    let Node::Star(part) = words::node_at(p, j) else {
        return None;
    };
    let part = usize::from(part);
    if usize::from(weights[part]) == a && is_node(p, part, w, i, tmp) {
        Some(a.max(1) + 1)
    } else {
        None
    }
}

// A term that weighs a, whose word starts with the unit `next`, with the interruption j. `1` is never such a term: its unit is Wait.
// Ruled out (must-fail/): `1` there.
fn weigh_act(p: &[u8], weights: &[u8], j: usize, a: usize, next: Unit) -> Option<usize>
    requires { Weighted p.now weights.now × ((j < 192) × (a ≤ 96)) }
    ensures { (ms : List ℕ) (ts : List Term) → 1 ≤ length ts → a ≡ weight (hd ts) → (hd ts ≡ One) ↔ (next ≡ Unit.One) → Judged p.now ms (u_act j) ts result }
{
    if j < words::count(p) && !words::node_at(p, j).is_term() && next != Unit::One {
        Some((a + 1).max(usize::from(weights[j])))
    } else {
        None
    }
}

// `1` with the interruption j.
fn weigh_wait(p: &[u8], weights: &[u8], j: usize) -> Option<usize>
    requires { Weighted p.now weights.now × (j < 192) }
    ensures { (ms : List ℕ) (ts : List Term) → Judged p.now ms (u_wait j) ts result }
{
    if j < words::count(p) && !words::node_at(p, j).is_term() {
        Some(usize::from(weights[j]).max(1))
    } else {
        None
    }
}

// What the unit at place i weighs with its parts, whose weights it takes from the stack.
fn weigh_unit(
    p: &[u8],
    weights: &[u8],
    modules: &[u8],
    w: &[usize],
    i: usize,
    tmp: &mut [usize],
    stack: &mut ArrayVec<usize, 96>,
) -> Option<usize>
    requires { Known p.now weights.now modules.now × ((length tmp.old ≡ 96) × Behind p.now w.now i stack.old.items) }
    ensures judged { Judged p.now modules.now (mark (get_or w.now i 0)) (terms p.now (drop (i + 1) w.now)) result }
    ensures taken { OnSome result (Stacked stack.new.items (drop (arity (mark (get_or w.now i 0))) (terms p.now (drop (i + 1) w.now)))) }
{
    match Unit::of(w[i]) {
        Unit::Sequence(y) => weigh_seq(p, weights, y, stack.pop()?),
        Unit::Star(j) => weigh_star(p, weights, j, w, i + 1, tmp, stack.pop()?),
        Unit::Act(j) => weigh_act(p, weights, j, stack.pop()?, Unit::of(w[i + 1])),
        Unit::Wait(j) => weigh_wait(p, weights, j),
        Unit::One => Some(0),
        Unit::Par => Some(stack.pop()?.max(1) + stack.pop()?.max(1) + 1),
        Unit::Module(m) => is_module(modules, m).then_some(1),
    }
}

// Whether the word from place s on is one that a state of the program can have: right, of one term or none, its modules the program's, and of a
// weight of at most 96.
pub fn walk(
    p: &[u8],
    weights: &[u8],
    modules: &[u8],
    w: &[usize],
    s: usize,
    tmp: &mut [usize],
) -> bool
    requires { Known p.now weights.now modules.now × ((length w.now ≡ 96) × ((length tmp.old ≡ 96) × (s ≤ 96))) }
    ensures { Tells result (Sound p.now modules.now (drop s w.now) × (length (terms p.now (drop s w.now)) ≤ 1)) }
{
    let mut stack: ArrayVec<usize, 96> = ArrayVec::new();
    for i in (s..96).rev() {
        let Some(weight) = weigh_unit(p, weights, modules, w, i, tmp, &mut stack) else {
            return false;
        };
        if 96 < weight {
            return false;
        }
        stack.push(weight);
    }
    stack.len() <= 1
}
