// Discovery: each state in turn, letter by letter. The states found lie in the working slice in the live coding (`slots`), so that the table and the live
// engine share one reaction and one notion of equality. What each letter leads to is kept as a number, an entry of the table to be.
#![tactic(auto)]

ghost use Rattle.std.specs.Prelude.{◌≡◌, true, List, [], ◌∷◌, ℕ, ◌+◌, ◌*◌, ◌≤◌, ◌<◌, length, drop};
ghost use Rattle.paper.specs.Lists.{has};
ghost use Rattle.paper.specs.Rewriting.{occurrence};
ghost use Rattle.paper.specs.Reaction.{Program, State as Reached, start_of};
ghost use Rattle.paper.specs.Discovery.{letters};
ghost use Rattle.laws.proofs.Reached.{Idle};
ghost use Rattle.words.specs.Pieces.{Table};
ghost use Rattle.rewrite.specs.Steps.{letter_of, Stands};
ghost use Rattle.rewrite.specs.Stored.{stored};
ghost use Rattle.react.specs.States.{state_of};
ghost use Rattle.emit.specs.Entries.{orders_from};
ghost use Rattle.coding.specs.Written.{Written};
ghost use Rattle.engine.specs.Live.{Letters, Loaded, Rooted, Kinds, Stated, Runs};
ghost use Rattle.discover.specs.Finding.{Numbered, Idles, Room, Seen, Arrives, Standing, Turns, Stocked, Visits, Visited, Explores, Explored, Begins, Discovers};

use engine::{begin, go};
use parts::{count_parts, parts_of};
use react::State;
use rewrite::{Letter, Memory, copy};
use slots::enroll;
use unpack::unpack;
use words::event_armed;

// Where one letter led: whether to one state too many, how many there are then, and the entry.
#[derive(Clone, Copy)]
pub struct Arrived {
    pub over: bool,
    pub count: usize,
    pub entry: u32,
}

// What a state's turn left: whether there were too many states, whether its term has too many parts, how many states there are then.
#[derive(Clone, Copy)]
pub struct Turned {
    pub over: bool,
    pub large: bool,
    pub count: usize,
}

// What discovery found: more than 512 states, or a term of too many parts, or how many states; and the modules that run at the start.
#[derive(Clone, Copy)]
pub struct Found {
    pub over: bool,
    pub large: bool,
    pub count: usize,
    pub running: [u8; 8],
}

fn wide(x: u8) -> usize
    ensures { result ≡ x }
{
    x as usize
}

// The j-th letter of the program, modules first.
fn letter_at(modules: &[u8], events: &[u8], j: usize) -> Letter
    requires { j < length modules.now + length events.now }
    ensures { (q : Program) → Letters q modules.now events.now → drop j (letters q) ≡ letter_of result ∷ drop (j + 1) (letters q) }
{
    let m = modules.len();
    if j < m {
        Letter::Completion(wide(modules[j]))
    } else {
        Letter::Occurrence(wide(events[j - m]))
    }
}

// One order more behind those of an entry.
fn with_order(n: usize, order: u8) -> usize
    requires { n < 4294967296 }
    ensures { (result ≡ 4 * n + order) × (result < 4 * n + 256) }
{
    4 * n + wide(order)
}

// The number of a possible entry: its bit, the next state, the orders.
fn entry_of(next: usize, orders: [u8; 8]) -> u32
    requires { next ≤ 512 }
    ensures { result ≡ orders_from (512 + next) orders }
{
    let one = with_order(512 + next, orders[0]);
    let two = with_order(one, orders[1]);
    let three = with_order(two, orders[2]);
    let four = with_order(three, orders[3]);
    let five = with_order(four, orders[4]);
    let six = with_order(five, orders[5]);
    let seven = with_order(six, orders[6]);
    with_order(seven, orders[7]) as u32
}

// One letter in the state whose word stands in w: the entry, and the state that it leads to among those found, a new one behind them.
fn arrive(
    nodes: &[u8],
    modules: &[u8],
    events: &[u8],
    fugitive: &[bool; 26],
    w: &[usize],
    state: State,
    letter: Letter,
    next: &mut [usize],
    tmp: &mut [usize],
    work: &mut [u8],
    index: &mut [usize],
    count: usize,
) -> Arrived
    requires runs { Runs nodes.now modules.now events.now fugitive.now w.now state (letter_of letter) }
    requires room { Room w.now next.old tmp.old work.old index.old count }
    ensures { (q : Program) → Loaded q nodes.now modules.now events.now → Kinds q fugitive.now
        → Stated q nodes.now modules.now w.now state (letter_of letter)
        → (S : List Reached) → Seen q work.old index.old S → length S ≡ count
        → Arrives q (state_of nodes.now w.now modules.now state) (letter_of letter) S work.new index.new result }
{
    let mut bytes = [0u8; 128];
    copy(w, next, 0);
    let a = go(
        nodes, modules, events, fugitive, &mut bytes, next, tmp, state, letter,
    );
    if a.number != 0 {
        return Arrived {
            over: false,
            count: count,
            entry: 0,
        };
    }
    let orders = a.orders;
    let Some(enrolled) = enroll(work, index, count, &bytes) else {
        return Arrived {
            over: true,
            count,
            entry: 0,
        };
    };
    Arrived {
        over: false,
        count: enrolled.count,
        entry: entry_of(enrolled.number, orders),
    }
}

// Whether an event is stored.
fn is_stored(memory: Memory, e: usize) -> bool
    requires { memory.count ≤ 8 }
    ensures { result ≡ has e (stored memory) }
{
    let n = memory.count;
    let mut k = 0;
    while k < n {
        if e == memory.events[k] {
            return true;
        }
        k += 1;
    }
    false
}

// Whether it is seen at once that the event changes nothing: at the end, a fugitive one that is not armed, a stored one.
fn passes(nodes: &[u8], fugitive: &[bool; 26], w: &[usize], state: State, e: usize) -> bool
    requires { Table nodes.now × (Stands nodes.now w.now state.start × ((state.memory.count ≤ 8) × (e < 26))) }
    ensures { (q : Program) → Kinds q fugitive.now → (ms : List ℕ) → result ≡ true → Idle q (state_of nodes.now w.now ms state) e }
{
    if state.start == 96 {
        return true;
    }
    if fugitive[e] {
        !event_armed(nodes, w, state.start, e)
    } else {
        is_stored(state.memory, e)
    }
}

// The same of a letter: a completion never passes.
fn idle(nodes: &[u8], fugitive: &[bool; 26], w: &[usize], state: State, letter: Letter) -> bool
    requires { Table nodes.now × (Stands nodes.now w.now state.start × ((state.memory.count ≤ 8) × ((e : ℕ) → letter_of letter ≡ occurrence e → e < 26))) }
    ensures { (q : Program) → Kinds q fugitive.now → (ms : List ℕ) → result ≡ true → Idles q (state_of nodes.now w.now ms state) (letter_of letter) }
{
    match letter {
        Letter::Completion(_) => false,
        Letter::Occurrence(e) => passes(nodes, fugitive, w, state, e),
    }
}

// One letter in the k-th of the states found, whose word stands in w. Most occurrences change nothing: they lead to the state itself, with no orders,
// and nothing is copied, coded or looked up for them.
fn meet(
    nodes: &[u8],
    modules: &[u8],
    events: &[u8],
    fugitive: &[bool; 26],
    w: &[usize],
    state: State,
    letter: Letter,
    next: &mut [usize],
    tmp: &mut [usize],
    work: &mut [u8],
    index: &mut [usize],
    count: usize,
    k: usize,
) -> Arrived
    requires runs { Runs nodes.now modules.now events.now fugitive.now w.now state (letter_of letter) }
    requires room { Room w.now next.old tmp.old work.old index.old count }
    requires k_bound { k ≤ 512 }
    ensures { (q : Program) → Loaded q nodes.now modules.now events.now → Kinds q fugitive.now
        → Stated q nodes.now modules.now w.now state (letter_of letter)
        → (S : List Reached) → Seen q work.old index.old S → length S ≡ count
        → Numbered (state_of nodes.now w.now modules.now state) S k
        → Arrives q (state_of nodes.now w.now modules.now state) (letter_of letter) S work.new index.new result }
{
    if idle(nodes, fugitive, w, state, letter) {
        return Arrived {
            over: false,
            count: count,
            entry: entry_of(k, [0; 8]),
        };
    }
    arrive(
        nodes, modules, events, fugitive, w, state, letter, next, tmp, work, index, count,
    )
}

// The turn of the k-th of the states found, whose word stands in w: letter by letter, its entries from `at` on.
fn turn(
    nodes: &[u8],
    modules: &[u8],
    events: &[u8],
    fugitive: &[bool; 26],
    w: &[usize],
    state: State,
    next: &mut [usize],
    tmp: &mut [usize],
    work: &mut [u8],
    index: &mut [usize],
    count: usize,
    entries: &mut [u32],
    at: usize,
    k: usize,
) -> Turned
    requires standing { Standing nodes.now modules.now events.now fugitive.now w.now state work.old index.old count k }
    requires room { Room w.now next.old tmp.old work.old index.old count }
    requires events_bound { (at + (length modules.now + length events.now) ≤ 8192) × (8192 ≤ length entries.old) }
    ensures { (q : Program) → Loaded q nodes.now modules.now events.now → Kinds q fugitive.now
        → Written q (state_of nodes.now w.now modules.now state)
        → (S : List Reached) → Seen q work.old index.old S → length S ≡ count
        → Numbered (state_of nodes.now w.now modules.now state) S k
        → Turns q (state_of nodes.now w.now modules.now state) S work.new index.new entries.old entries.new at result.over result.count }
{
    let n = modules.len() + events.len();
    let mut seen = count;
    let mut j = 0;
    while j < n {
        let letter = letter_at(modules, events, j);
        let a = meet(
            nodes, modules, events, fugitive, w, state, letter, next, tmp, work, index, seen, k,
        );
        if a.over {
            return Turned {
                over: true,
                large: false,
                count: 0,
            };
        }
        seen = a.count;
        entries[at + j] = a.entry;
        j += 1;
    }
    Turned {
        over: false,
        large: false,
        count: seen,
    }
}

// The turn of the k-th state: its bytes to a word, its parts, its letters.
fn visit(
    nodes: &[u8],
    weights: &[u8],
    modules: &[u8],
    events: &[u8],
    fugitive: &[bool; 26],
    sizes: &[usize],
    w: &mut [usize],
    next: &mut [usize],
    tmp: &mut [usize],
    work: &mut [u8],
    index: &mut [usize],
    count: usize,
    entries: &mut [u32],
    k: usize,
) -> Turned
    requires visits { Visits nodes.now weights.now modules.now events.now fugitive.now sizes.now work.old index.old count k }
    requires room { Room w.old next.old tmp.old work.old index.old count }
    requires in_bounds { 8192 ≤ length entries.old }
    ensures { (q : Program) → Loaded q nodes.now modules.now events.now → Kinds q fugitive.now
        → (S : List Reached) → Seen q work.old index.old S → length S ≡ count → (x : Reached) → (rest : List Reached) → drop k S ≡ x ∷ rest
        → Visited q x S work.new index.new entries.old entries.new (k * (length modules.now + length events.now)) result }
{
    let from = 128 * k;
    // what was found is a code, so it is decoded
    let Some(state) = unpack(
        nodes,
        weights,
        modules,
        events,
        fugitive,
        &work[from..from + 128],
        w,
        tmp,
    ) else {
        unreachable!()
    };
    let large = 8192 < parts_of(nodes, sizes, w, state.start);
    let n = modules.len() + events.len();
    let t = turn(
        nodes,
        modules,
        events,
        fugitive,
        w,
        state,
        next,
        tmp,
        work,
        index,
        count,
        entries,
        k * n,
        k,
    );
    Turned {
        over: t.over,
        large: large,
        count: t.count,
    }
}

// Each state in turn, from the start, which stands in the working slice, until none waits or there is one too many.
fn explore(
    nodes: &[u8],
    weights: &[u8],
    modules: &[u8],
    events: &[u8],
    fugitive: &[bool; 26],
    sizes: &[usize],
    w: &mut [usize],
    next: &mut [usize],
    tmp: &mut [usize],
    work: &mut [u8],
    index: &mut [usize],
    entries: &mut [u32],
) -> Turned
    requires explores { Explores nodes.now weights.now modules.now events.now fugitive.now sizes.now work.old index.old }
    requires room { Room w.old next.old tmp.old work.old index.old 1 }
    requires in_bounds { 8192 ≤ length entries.old }
    ensures { (q : Program) → Loaded q nodes.now modules.now events.now → Kinds q fugitive.now
        → Seen q work.old index.old (start_of q ∷ []) → Explored q entries.new result }
{
    let mut count = 1;
    let mut large = false;
    let mut k = 0;
    while k < count {
        let t = visit(
            nodes, weights, modules, events, fugitive, sizes, w, next, tmp, work, index, count,
            entries, k,
        );
        if t.over {
            return Turned {
                over: true,
                large: false,
                count: 0,
            };
        }
        count = t.count;
        large = large || t.large;
        k += 1;
    }
    Turned {
        over: false,
        large: large,
        count: count,
    }
}

// All reachable states from the start on, at most 512, with each one's bytes in the working slice, and the table's entries.
pub fn discover(
    nodes: &[u8],
    weights: &[u8],
    root: usize,
    modules: &[u8],
    events: &[u8],
    fugitive: &[bool; 26],
    work: &mut [u8],
    entries: &mut [u32],
) -> Found
    requires begins { Begins nodes.now weights.now root modules.now events.now fugitive.now }
    requires in_bounds { (65536 ≤ length work.old) × (8192 ≤ length entries.old) }
    ensures { (q : Program) → Loaded q nodes.now modules.now events.now → Rooted q nodes.now root → Kinds q fugitive.now
        → Discovers q modules.now entries.new result }
{
    let mut bytes = [0u8; 128];
    let mut index = [0usize; 1536];
    let mut sizes = [0usize; 192];
    let mut w = [0usize; 96];
    let mut next = [0usize; 96];
    let mut tmp = [0usize; 96];
    count_parts(nodes, &mut sizes);
    let a = begin(nodes, root, modules, events, &mut bytes);
    let running = a.orders;
    enroll(work, &mut index, 0, &bytes);
    let t = explore(
        nodes, weights, modules, events, fugitive, &sizes, &mut w, &mut next, &mut tmp, work,
        &mut index, entries,
    );
    Found {
        over: t.over,
        large: t.large,
        count: t.count,
        running: running,
    }
}
