// How many parts the term of a word has, as No. 18 counts them: "each name or `1`, each join (sequence too), `/`, `:` and star". Counted up to 8,193, which
// is one too many, so no sum overflows. Nothing is refused here: callers see to the table and the word.
#![tactic(auto)]

ghost use Rattle.std.specs.Prelude.{◌+◌, ◌≤◌, ◌<◌, ◌≡◌, length, get_or};
ghost use Rattle.paper.specs.Refusals.{parts_of};
ghost use Rattle.program.specs.Rows.{kind_in, left_in, right_in};
ghost use Rattle.words.specs.Unit.{unit_mark};
ghost use Rattle.words.specs.Pieces.{Table};
ghost use Rattle.rewrite.specs.Steps.{state, Stands};
ghost use Rattle.parts.specs.Parts.{capped, row_parts, Counted, unit_parts, Meant};

use program::Node;
use words::Unit;

// The sum, or 8,193 where it is more.
fn plus(a: usize, b: usize) -> usize
    ensures { result ≡ capped (a + b) }
{
    a.saturating_add(b).min(8193)
}

// The parts of a node, by those of its own parts.
#[tactic(auto, unfolding(crate::specs::Parts::row_parts))]
fn node_parts(node: Node, sizes: &[usize]) -> usize
    requires { (left_in node < length sizes.now) × (right_in node < length sizes.now) }
    ensures { result ≡ capped (row_parts (kind_in node) (get_or sizes.now (left_in node) 0) (get_or sizes.now (right_in node) 0)) }
{
    match node {
        Node::Sequence(left, right)
        | Node::Par(left, right)
        | Node::Act(left, right)
        | Node::Either(left, right)
        | Node::Both(left, right) => {
            plus(1, plus(sizes[usize::from(left)], sizes[usize::from(right)]))
        }
        Node::Star(part) => plus(1, sizes[usize::from(part)]),
        Node::Treat(_, then) => plus(2, sizes[usize::from(then)]),
        Node::Module(_) | Node::One | Node::Event(_) => 1,
    }
}

// The parts of each node, in `sizes`. A node's own parts stand below it, so theirs are there already.
// Ruled out (must-fail/): a treatment counted as its event.
pub fn count_parts(nodes: &[u8], sizes: &mut [usize])
    requires { Table nodes.now × (192 ≤ length sizes.old) }
    ensures { Counted nodes.now sizes.new }
{
    for i in 0..words::count(nodes) {
        sizes[i] = node_parts(words::node_at(nodes, i), sizes);
    }
}

// What a unit adds to the parts of the terms after it. The table p says what it means, and is not read.
#[tactic(auto, unfolding(crate::specs::Parts::unit_parts))]
fn unit_parts(p: &[u8], sizes: &[usize], unit: Unit) -> usize
    requires { Counted p.now sizes.now × Meant p.now (unit_mark unit) }
    ensures { result ≡ capped (unit_parts p.now (unit_mark unit)) }
{
    match unit {
        Unit::Sequence(node) | Unit::Act(node) => plus(1, sizes[node]),
        Unit::Wait(node) => plus(2, sizes[node]),
        Unit::Star(_) | Unit::One | Unit::Par | Unit::Module(_) => 1,
    }
}

// The parts of what the word from place s on says: one pass over its units. The table p says what they mean, and is not read.
// Ruled out (must-fail/): `1/i` counted without its `1`, a cap that 8,193 parts do not pass.
pub fn parts_of(p: &[u8], sizes: &[usize], w: &[usize], s: usize) -> usize
    requires { Counted p.now sizes.now × Stands p.now w.now s }
    ensures { result ≡ capped (parts_of (state p.now w.now s)) }
{
    let mut n = 0;
    for &unit in &w[s..] {
        n = plus(n, unit_parts(p, sizes, Unit::of(unit)));
    }
    n
}
