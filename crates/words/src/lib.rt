// Words of units over a table of nodes: a state's term as the walk of what runs in it, in prefix order.
// The table is 768 bytes, four columns of 192 nodes. A word is written in front of what is there, from the right, its root's unit last; so
// nothing is moved or undone. Nothing is refused here: callers see to the table, the places and the room.
#![tactic(auto)]

ghost use Rattle.std.specs.Prelude.{◌≡◌, ◌∷◌, ◌+◌, ◌-◌, ◌^◌, ◌≤◌, ◌<◌, length, take, drop, get_or};
ghost use Rattle.paper.specs.Running.{heads};
ghost use Rattle.laws.specs.Nodes.{Nodes, letter, count, tree, intr};
ghost use Rattle.words.specs.Unit.{unit_mark, number_of, HasNode, HasEvent};
ghost use Rattle.words.specs.Word.{Right, mark, arity, terms, any_runs, any_armed, arms};
ghost use Rattle.words.specs.Pieces.{node_of, Cols, Says, Put, Faced, Asks, Drawn, Src, Past, Agree};

use program::Node;

// A unit of a word: the node after `;`, the starred node before its part, the interruption of a `/` and of `1/i`, `1`, `||`, a module.
#[derive(Clone, Copy, PartialEq, Eq, Debug)]
pub enum Unit {
    Sequence(usize),
    Star(usize),
    Act(usize),
    Wait(usize),
    One,
    Par,
    Module(usize),
}

impl Unit {
    // What a number says: the only place that tells the numbers apart.
    #[inline]
    #[tactic(auto, unfolding(crate::specs::Word::mark))]
    pub fn of(number: usize) -> Unit
        ensures says { unit_mark result ≡ mark number }
        ensures number { number_of result ≡ number }
        ensures node { HasNode result }
    {
        match number {
            0..=191 => Unit::Sequence(number),
            192..=383 => Unit::Star(number - 192),
            384..=575 => Unit::Act(number - 384),
            576..=767 => Unit::Wait(number - 576),
            768 => Unit::One,
            769 => Unit::Par,
            _ => Unit::Module(number - 770),
        }
    }

    // The number that it is written as.
    #[inline]
    pub fn number(self) -> usize
        requires { number_of self < 2 ^ 64 }
        ensures { result ≡ number_of self }
    {
        match self {
            Unit::Sequence(node) => node,
            Unit::Star(node) => 192 + node,
            Unit::Act(node) => 384 + node,
            Unit::Wait(node) => 576 + node,
            Unit::One => 768,
            Unit::Par => 769,
            Unit::Module(module) => 770 + module,
        }
    }

    // How many of the terms after it the unit takes.
    #[inline]
    pub fn parts(self) -> usize
        ensures { result ≡ arity (unit_mark self) }
    {
        match self {
            Unit::Sequence(_) | Unit::Star(_) | Unit::Act(_) => 1,
            Unit::Wait(_) | Unit::One | Unit::Module(_) => 0,
            Unit::Par => 2,
        }
    }
}

// A node's four columns.
#[derive(Clone, Copy)]
pub struct Columns {
    pub kind: usize,
    pub left: usize,
    pub right: usize,
    pub letter: usize,
}

// The columns of node j, those too that its kind does not use.
pub fn node(p: &[u8], j: usize) -> Columns
    requires { (length p.now ≡ 768) × (j < 192) }
    ensures { Cols p.now j result.kind result.left result.right result.letter }
{
    Columns {
        kind: usize::from(p[j]),
        left: usize::from(p[j + 192]),
        right: usize::from(p[j + 384]),
        letter: usize::from(letter(p, j)),
    }
}

// Node j, of its columns those that its kind uses.
#[tactic(auto, unfolding(crate::specs::Pieces::node_of))]
pub fn node_at(p: &[u8], j: usize) -> Node
    requires { (length p.now ≡ 768) × (j < 192) }
    ensures row { result ≡ node_of p.now j }
    ensures columns { Says p.now j result }
{
    let (left, right) = (p[j + 192], p[j + 384]);
    match node(p, j).kind {
        0 => Node::Module(letter(p, j)),
        1 => Node::One,
        2 => Node::Sequence(left, right),
        3 => Node::Par(left, right),
        4 => Node::Star(left),
        5 => Node::Act(left, right),
        7 => Node::Treat(letter(p, j), right),
        8 => Node::Either(left, right),
        9 => Node::Both(left, right),
        _ => Node::Event(letter(p, j)),
    }
}

// The letter of node j.
pub fn letter(p: &[u8], j: usize) -> u8
    requires { (length p.now ≡ 768) × (j < 192) }
    ensures { result ≡ letter p.now j }
{
    p[j + 576]
}

// How many nodes there are: the table has the number where node 0 would have its letter.
pub fn count(p: &[u8]) -> usize
    requires { length p.now ≡ 768 }
    ensures { result ≡ count p.now }
{
    usize::from(letter(p, 0))
}

// Writes a unit in front of place e, and answers its place.
pub fn put(dst: &mut [usize], e: usize, unit: Unit) -> usize
    requires { (1 ≤ e) × (e ≤ length dst.old) × (number_of unit < 2 ^ 64) }
    ensures { Put dst.old dst.new e result (number_of unit) }
{
    dst[e - 1] = unit.number();
    e - 1
}

// Puts `/` with the interruption i to the term whose word starts at place e: `1/i` is the one unit Wait i.
pub fn put_act(dst: &mut [usize], e: usize, i: usize) -> usize
    requires { ((get_or dst.old e 0 ≡ 768 → ⊥) → 1 ≤ e) × ((e < length dst.old) × (i < 192)) }
    ensures { Faced dst.old dst.new e result i }
{
    match Unit::of(dst[e]) {
        Unit::One => put(dst, e + 1, Unit::Wait(i)),
        _ => put(dst, e, Unit::Act(i)),
    }
}

// Writes the word of node j in front of place e, and answers where it starts. Ruled out (must-fail/): the sides of `||` swapped.
pub fn expand(p: &[u8], j: usize, dst: &mut [usize], e: usize) -> usize
    requires { Asks p.now j e (length dst.old) }
    ensures { Drawn p.now dst.old dst.new e result (tree p.now j) }
{
    match node_at(p, j) {
        Node::Module(letter) => put(dst, e, Unit::Module(usize::from(letter))),
        Node::Sequence(first, then) => {
            let a = expand(p, usize::from(first), dst, e);
            put(dst, a, Unit::Sequence(usize::from(then)))
        }
        Node::Par(left, right) => {
            let b = expand(p, usize::from(right), dst, e);
            let a = expand(p, usize::from(left), dst, b);
            put(dst, a, Unit::Par)
        }
        Node::Star(part) => {
            let a = expand(p, usize::from(part), dst, e);
            put(dst, a, Unit::Star(j))
        }
        Node::Act(part, by) => {
            let a = expand(p, usize::from(part), dst, e);
            put_act(dst, a, usize::from(by))
        }
        _ => put(dst, e, Unit::One),
    }
}

// The place past the word that starts at s.
pub fn skip(p: &[u8], src: &[usize], s: usize) -> usize
    requires { Src p.now src.now s }
    ensures { Past p.now src.now s result }
{
    match Unit::of(src[s]).parts() {
        0 => s + 1,
        1 => skip(p, src, s + 1),
        _ => {
            let second = skip(p, src, s + 1);
            skip(p, src, second)
        }
    }
}

// Whether the units from a up to z of one word are those from b up to e of the other.
#[tactic(auto, unfolding(crate::specs::Pieces::Agree))]
pub fn same(x: &[usize], a: usize, z: usize, y: &[usize], b: usize, e: usize) -> bool
    requires { ((a ≤ z) × (z ≤ length x.now)) × ((b ≤ e) × (e ≤ length y.now)) }
    ensures { Agree result (take (z - a) (drop a x.now)) (take (e - b) (drop b y.now)) }
{
    x[a..z] == y[b..e]
}

// Whether the module m runs in the word that starts at s: its unit stands there.
pub fn running(p: &[u8], src: &[usize], s: usize, m: usize) -> bool
    requires { Right p.now (drop s src.now) × ((s ≤ length src.now) × (m < 256)) }
    ensures { result ≡ any_runs m (terms p.now (drop s src.now)) }
{
    src[s..].contains(&Unit::Module(m).number())
}

// Whether the event x stands at the head of the interruption i.
pub fn headed(p: &[u8], i: usize, x: usize) -> bool
    requires { Nodes p.now × (i < count p.now) }
    ensures { result ≡ heads x (intr p.now i) }
{
    match node_at(p, i) {
        Node::Either(first, second) | Node::Both(first, second) => {
            headed(p, usize::from(first), x) || headed(p, usize::from(second), x)
        }
        _ => x == usize::from(letter(p, i)),
    }
}

// Whether a unit arms the event x: the heads of Act and Wait do.
#[tactic(auto, unfolding(crate::specs::Word::arms))]
pub fn unit_arms(p: &[u8], unit: Unit, x: usize) -> bool
    requires { Nodes p.now × HasEvent p.now unit }
    ensures { result ≡ arms p.now x (unit_mark unit) }
{
    match unit {
        Unit::Act(i) | Unit::Wait(i) => headed(p, i, x),
        _ => false,
    }
}

// Whether the event x is armed in the word that starts at s.
pub fn event_armed(p: &[u8], src: &[usize], s: usize, x: usize) -> bool
    requires { Nodes p.now × (Right p.now (drop s src.now) × (s ≤ length src.now)) }
    ensures { result ≡ any_armed x (terms p.now (drop s src.now)) }
{
    src[s..].iter().any(|&unit| unit_arms(p, Unit::of(unit), x))
}
