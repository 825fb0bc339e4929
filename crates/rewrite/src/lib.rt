// A letter on a state's word and memory: completion and taking by one rule, settling, and what an occurrence does; and the order to a module.
// One word is read and another written in front of what is there. Nothing is refused: callers see to the table, the places and the room.
#![tactic(auto)]

ghost use Rattle.std.specs.Prelude.{◌≡◌, [], ◌∷◌, ◌++◌, false, ℕ, ◌+◌, ◌≤◌, ◌<◌, length, drop};
ghost use Rattle.paper.specs.Term.{One, Act};
ghost use Rattle.paper.specs.Lists.{has};
ghost use Rattle.paper.specs.Rewriting.{occurrence, rewritten, hit as hit_by, strikes as struck_by, ends as ended_by};
ghost use Rattle.paper.specs.Settling.{settled};
ghost use Rattle.paper.specs.Reaction.{Program, occurred, moved, order as order_of, stays as stays_in};
ghost use Rattle.laws.specs.Nodes.{Nodes, kind, left, count, tree, intr};
ghost use Rattle.laws.specs.Weight.{room};
ghost use Rattle.words.specs.Word.{mark, Fine, Right, terms};
ghost use Rattle.words.specs.Pieces.{Table, Asks, Src, Made, top};
ghost use Rattle.rewrite.specs.Steps.{letter_of, Works, Hits, room_i, SeqOn, StarOn, ActOn, ParOn, leaf, Stands, state};
ghost use Rattle.rewrite.specs.Stored.{stored, lead, removed, Rests};

use program::Node;
use words::Unit;

// A completion of a module, or an occurrence of an event.
#[derive(Clone, Copy)]
pub enum Letter {
    Completion(usize),
    Occurrence(usize),
}

// Whether the module n vanishes.
fn ends(n: usize, letter: Letter) -> bool
    ensures { result ≡ ended_by (letter_of letter) n }
{
    match letter {
        Letter::Completion(m) => m == n,
        Letter::Occurrence(_) => false,
    }
}

// Whether the letter strikes the interruption i.
fn strikes(p: &[u8], i: usize, letter: Letter) -> bool
    requires { Nodes p.now × (i < count p.now) }
    ensures { result ≡ struck_by (letter_of letter) (intr p.now i) }
{
    match letter {
        Letter::Completion(_) => false,
        Letter::Occurrence(x) => words::headed(p, i, x),
    }
}

// A sequence whose first part was rewritten, from a up to e, and whose second is node y: where that part is gone, the second.
fn go_on_seq(p: &[u8], y: usize, dst: &mut [usize], a: usize, e: usize) -> usize
    requires { Asks p.now y e (length dst.old) × ((1 ≤ a) × (a ≤ e)) }
    ensures { SeqOn p.now dst.old dst.new e a result (tree p.now y) }
{
    if a == e {
        words::expand(p, y, dst, e)
    } else {
        words::put(dst, a, Unit::Sequence(y))
    }
}

// The starred node j, whose part stands at c of src and was rewritten, from a up to e: gone or equal to before, it is the starred part again.
fn go_on_star(
    p: &[u8],
    j: usize,
    src: &[usize],
    c: usize,
    dst: &mut [usize],
    a: usize,
    e: usize,
) -> usize
    requires { Asks p.now j e (length dst.old) × ((kind p.now j ≡ 4) × (Src p.now src.now c × ((top p.now src.now c ≡ tree p.now (left p.now j)) × ((1 ≤ a) × (a ≤ e))))) }
    ensures { StarOn p.now dst.old dst.new e a result (top p.now src.now c) }
{
    if a == e {
        return words::expand(p, j, dst, e);
    }
    let z = words::skip(p, src, c);
    if words::same(src, c, z, dst, a, e) {
        words::put(dst, a, Unit::Star(j))
    } else {
        words::put(dst, a, Unit::Sequence(j))
    }
}

// A `/` with the interruption i that was not struck, whose first part was rewritten, from a up to e: gone, if that part is.
fn go_on_act(p: &[u8], i: usize, dst: &mut [usize], a: usize, e: usize) -> usize
    requires { Nodes p.now × ((i < count p.now) × ((5 < kind p.now i) × ((1 ≤ a) × ((a ≤ e) × (e ≤ length dst.old))))) }
    ensures { ActOn p.now dst.old dst.new e a result i }
{
    if a == e { e } else { words::put_act(dst, a, i) }
}

// A `||` whose right side was rewritten, from b up to e, and whose left, from a up to b: one side gone, it is the other.
fn go_on_par(dst: &mut [usize], a: usize, b: usize, e: usize) -> usize
    requires { (1 ≤ a) × (a ≤ length dst.old) }
    ensures { ParOn dst.old dst.new e b a result }
{
    if a == b {
        a
    } else if b == e {
        a
    } else {
        words::put(dst, a, Unit::Par)
    }
}

// Hits the interruption i, which the letter strikes, and writes what that leaves in front of place e.
#[cycle(hit_side)]
fn hit(p: &[u8], i: usize, letter: Letter, dst: &mut [usize], e: usize) -> usize
    requires { Hits p.now i e (length dst.old) }
    ensures { Made p.now dst.old dst.new e result (room_i (intr p.now i)) (hit_by (letter_of letter) (intr p.now i)) }
{
    match words::node_at(p, i) {
        Node::Treat(_, by) => words::expand(p, usize::from(by), dst, e),
        Node::Either(first, second) => {
            let first = usize::from(first);
            if strikes(p, first, letter) {
                hit(p, first, letter, dst, e)
            } else {
                hit(p, usize::from(second), letter, dst, e)
            }
        }
        Node::Both(left, right) => {
            let b = side(p, usize::from(right), letter, dst, e);
            let a = side(p, usize::from(left), letter, dst, b);
            go_on_par(dst, a, b, e)
        }
        _ => e,
    }
}

// `1` / i: hit where the letter strikes i, else it waits. So is a side i of a `||` of interruptions.
#[cycle(hit_side)]
fn side(p: &[u8], i: usize, letter: Letter, dst: &mut [usize], e: usize) -> usize
    requires { Hits p.now i e (length dst.old) }
    ensures { Made p.now dst.old dst.new e result (room_i (intr p.now i)) (rewritten (letter_of letter) (Act One (intr p.now i))) }
{
    if strikes(p, i, letter) {
        hit(p, i, letter, dst, e)
    } else {
        words::put(dst, e, Unit::Wait(i))
    }
}

// Rewrites the term whose word starts at s, and writes what is left of it in front of place e: e itself where nothing is left.
// Ruled out (must-fail/): a star that unrolls though its part is equal.
pub fn rewrite_term(
    p: &[u8],
    src: &[usize],
    s: usize,
    dst: &mut [usize],
    e: usize,
    letter: Letter,
) -> usize
    requires { Works p.now src.now s e (length dst.old) }
    ensures { Made p.now dst.old dst.new e result (room (top p.now src.now s)) (rewritten (letter_of letter) (top p.now src.now s)) }
{
    match Unit::of(src[s]) {
        Unit::Sequence(y) => {
            let a = rewrite_term(p, src, s + 1, dst, e, letter);
            go_on_seq(p, y, dst, a, e)
        }
        Unit::Star(j) => {
            let a = rewrite_term(p, src, s + 1, dst, e, letter);
            go_on_star(p, j, src, s + 1, dst, a, e)
        }
        Unit::Act(i) => {
            if strikes(p, i, letter) {
                hit(p, i, letter, dst, e)
            } else {
                let a = rewrite_term(p, src, s + 1, dst, e, letter);
                go_on_act(p, i, dst, a, e)
            }
        }
        Unit::Wait(i) => side(p, i, letter, dst, e),
        Unit::One => words::put(dst, e, Unit::One),
        Unit::Par => {
            let z = words::skip(p, src, s + 1);
            let b = rewrite_term(p, src, z, dst, e, letter);
            let a = rewrite_term(p, src, s + 1, dst, b, letter);
            go_on_par(dst, a, b, e)
        }
        Unit::Module(m) => {
            if ends(m, letter) {
                e
            } else {
                words::put(dst, e, Unit::Module(m))
            }
        }
    }
}

// Copies the places from a on.
pub fn copy(src: &[usize], dst: &mut [usize], a: usize)
    requires { (a ≤ 96) × ((length src.now ≡ 96) × (length dst.old ≡ 96)) }
    ensures { drop a dst.new ≡ drop a src.now }
{
    let mut i = 96;
    while a < i {
        i -= 1;
        dst[i] = src[i];
    }
}

// Rewrites the state whose word stands in w from s on, with tmp to write in, and answers where the new word starts.
pub fn rewrite_state(
    p: &[u8],
    w: &mut [usize],
    s: usize,
    tmp: &mut [usize],
    letter: Letter,
) -> usize
    requires { Table p.now × (Stands p.now w.old s × ((s < 96) × (length tmp.old ≡ 96))) }
    ensures { Stands p.now w.new result × (state p.now w.new result ≡ rewritten (letter_of letter) (top p.now w.old s)) }
{
    let r = rewrite_term(p, w, s, tmp, 96, letter);
    copy(tmp, w, r);
    r
}

// The stored events, oldest first: the first count of the eight places.
#[derive(Clone, Copy)]
pub struct Memory {
    pub events: [usize; 8],
    pub count: usize,
}

// The place of the oldest stored event that is armed, or the count where none is.
fn oldest_armed(p: &[u8], w: &[usize], s: usize, memory: Memory) -> usize
    requires { Nodes p.now × (Right p.now (drop s w.now) × ((s ≤ length w.now) × (memory.count ≤ 8))) }
    ensures { result ≡ lead (terms p.now (drop s w.now)) (stored memory) }
{
    let n = memory.count;
    let mut k = 0;
    while k < n {
        if words::event_armed(p, w, s, memory.events[k]) {
            return k;
        }
        k += 1;
    }
    n
}

// The event at a place leaves the memory: those after it move up.
pub fn forget(memory: Memory, at: usize) -> Memory
    requires { (at < memory.count) × (memory.count ≤ 8) }
    ensures { (result.count + 1 ≡ memory.count) × (stored result ≡ removed at (stored memory)) }
{
    let mut events = memory.events;
    let n = memory.count - 1;
    let mut i = at;
    while i < n {
        events[i] = events[i + 1];
        i += 1;
    }
    Memory {
        events: events,
        count: n,
    }
}

// An event is stored as the newest.
pub fn store(memory: Memory, e: usize) -> Memory
    requires { memory.count < 8 }
    ensures { (result.count ≡ memory.count + 1) × (stored result ≡ stored memory ++ (e ∷ [])) }
{
    let mut events = memory.events;
    let n = memory.count;
    events[n] = e;
    Memory {
        events: events,
        count: n + 1,
    }
}

// Where a settled state's word starts, and its memory.
#[derive(Clone, Copy)]
pub struct Settled {
    pub start: usize,
    pub memory: Memory,
}

// While a stored event is armed, the oldest such is taken and leaves the memory; at the end the memory is empty.
pub fn settle(p: &[u8], w: &mut [usize], s: usize, tmp: &mut [usize], memory: Memory) -> Settled
    requires { Table p.now × (Stands p.now w.old s × ((length tmp.old ≡ 96) × (memory.count ≤ 8))) }
    ensures { Rests p.now w.new result (settled (state p.now w.old s) (stored memory)) }
{
    if s == 96 {
        return Settled {
            start: s,
            memory: Memory {
                events: [0; 8],
                count: 0,
            },
        };
    }
    let k = oldest_armed(p, w, s, memory);
    let n = memory.count;
    if k == n {
        return Settled {
            start: s,
            memory: memory,
        };
    }
    let e = memory.events[k];
    let next = forget(memory, k);
    let r = rewrite_state(p, w, s, tmp, Letter::Occurrence(e));
    settle(p, w, r, tmp, next)
}

// Rewrites a state by a letter, and settles.
fn rewrite_settled(
    p: &[u8],
    w: &mut [usize],
    s: usize,
    tmp: &mut [usize],
    memory: Memory,
    letter: Letter,
) -> Settled
    requires { Table p.now × (Stands p.now w.old s × ((s < 96) × ((length tmp.old ≡ 96) × (memory.count ≤ 8)))) }
    ensures { Rests p.now w.new result (settled (rewritten (letter_of letter) (top p.now w.old s)) (stored memory)) }
{
    let r = rewrite_state(p, w, s, tmp, letter);
    settle(p, w, r, tmp, memory)
}

// Whether an event is stored.
fn has_event(memory: Memory, e: usize) -> bool
    requires { memory.count ≤ 8 }
    ensures { result ≡ has e (stored memory) }
{
    let n = memory.count;
    let mut k = 0;
    while k < n {
        if e == memory.events[k] {
            return true;
        }
        k += 1;
    }
    false
}

// An event occurs before the end. Fugitive: taken if armed, never stored. Standard: no change where it is stored, else taken if armed, or stored.
fn occur(
    p: &[u8],
    w: &mut [usize],
    s: usize,
    tmp: &mut [usize],
    memory: Memory,
    e: usize,
    fugitive: bool,
) -> Settled
    requires { Table p.now × (Stands p.now w.old s × ((s < 96) × ((length tmp.old ≡ 96) × ((memory.count ≤ 8) × (has e (stored memory) ≡ false → memory.count < 8))))) }
    ensures { (q : Program) → fugitive ≡ has e q.fugitive → Rests p.now w.new result (occurred q e (top p.now w.old s) (stored memory)) }
{
    let armed = words::event_armed(p, w, s, e);
    if fugitive {
        if armed {
            rewrite_settled(p, w, s, tmp, memory, Letter::Occurrence(e))
        } else {
            Settled {
                start: s,
                memory: memory,
            }
        }
    } else if has_event(memory, e) {
        Settled {
            start: s,
            memory: memory,
        }
    } else if armed {
        rewrite_settled(p, w, s, tmp, memory, Letter::Occurrence(e))
    } else {
        let more = store(memory, e);
        Settled {
            start: s,
            memory: more,
        }
    }
}

// The term and the memory after a letter; at the end nothing changes. A completion is of a module that runs: callers refuse any other.
pub fn advance(
    p: &[u8],
    w: &mut [usize],
    s: usize,
    tmp: &mut [usize],
    memory: Memory,
    letter: Letter,
    fugitive: bool,
) -> Settled
    requires { Table p.now × (Stands p.now w.old s × ((length tmp.old ≡ 96) × ((memory.count ≤ 8) × ((e : ℕ) → letter_of letter ≡ occurrence e → has e (stored memory) ≡ false → memory.count < 8)))) }
    ensures { (q : Program) → ((e : ℕ) → letter_of letter ≡ occurrence e → fugitive ≡ has e q.fugitive) → Rests p.now w.new result (moved q (letter_of letter) (state p.now w.old s) (stored memory)) }
{
    if s == 96 {
        return Settled {
            start: s,
            memory: memory,
        };
    }
    match letter {
        Letter::Completion(_) => rewrite_settled(p, w, s, tmp, memory, letter),
        Letter::Occurrence(e) => occur(p, w, s, tmp, memory, e, fugitive),
    }
}

// The order to a module, by whether it is the completed one, ran before, runs after, and is in the stopped set: 0 none, 1 start, 2 resume, 3 stop.
pub fn order(own: bool, before: bool, after: bool, stopped: bool) -> u8
    ensures { result ≡ order_of own before after stopped }
{
    if own {
        if after { 1 } else { 0 }
    } else if before {
        if after { 0 } else { 3 }
    } else if after {
        if stopped { 2 } else { 1 }
    } else {
        0
    }
}

// Whether a module is in the stopped set afterwards.
pub fn stays(own: bool, before: bool, after: bool, stopped: bool) -> bool
    ensures { result ≡ stays_in own before after stopped }
{
    if own {
        stopped
    } else if before {
        if after { stopped } else { true }
    } else if after {
        false
    } else {
        stopped
    }
}
