// The table of a program's nodes, from the program in postorder, and the weight of each node beside it. The columns and kinds are those of `Nodes` (`laws`).
// Each node is made through `make`, which adds one only where no equal one is there, so equal trees have equal numbers.
#![tactic(auto)]

ghost use Rattle.std.specs.Prelude.{◌+◌, ◌<◌, ◌≤◌, max, ◌≡◌, length, replicate};
ghost use Rattle.laws.specs.Nodes.{count};
ghost use Rattle.nodes.specs.Made.{is, find, make, code_kind, node};
ghost use Rattle.nodes.specs.Given.{Roomy, Leaves, Given, Numbered};
ghost use Rattle.nodes.specs.Weights.{row_weight, Weighable, Weighed};

// Node i has these columns.
fn has_columns(nodes: &[u8], i: usize, kind: u8, left: u8, right: u8, letter: u8) -> bool
    requires { i + 576 < length nodes.now }
    ensures { result ≡ is nodes.now kind left right letter i }
{
    if nodes[i] != kind {
        return false;
    }
    if nodes[i + 192] != left {
        return false;
    }
    if nodes[i + 384] != right {
        return false;
    }
    nodes[i + 576] == letter
}

// The first node with these columns, or the number of nodes.
fn find(nodes: &[u8], kind: u8, left: u8, right: u8, letter: u8) -> usize
    requires { (length nodes.now ≡ 768) × (count nodes.now ≤ 192) }
    ensures { result ≡ find nodes.now kind left right letter }
{
    let end = nodes[576] as usize;
    let mut i = 0;
    while i < end {
        if has_columns(nodes, i, kind, left, right, letter) {
            return i;
        }
        i += 1;
    }
    i
}

// A node with these columns: one that is there, or one more.
fn make(nodes: &mut [u8], kind: u8, left: u8, right: u8, letter: u8) -> u8
    requires { Roomy nodes.old }
    ensures { Leaves nodes.new result (make nodes.old kind left right letter) }
{
    let at = find(nodes, kind, left, right, letter);
    let count = nodes[576];
    let end = count as usize;
    if at < end {
        return at as u8;
    }
    nodes[end] = kind;
    nodes[end + 192] = left;
    nodes[end + 384] = right;
    nodes[end + 576] = letter;
    nodes[576] = count + 1;
    count
}

// The kind of the node that a code stands for.
fn code_kind(c: u8) -> u8
    ensures { result ≡ code_kind c }
{
    match c {
        b'a'..=b'z' => 0,
        b'A'..=b'Z' => 6,
        b'1' => 1,
        b'*' => 4,
        b';' => 2,
        b'|' => 3,
        b'/' => 5,
        b':' => 7,
        b'!' => 8,
        _ => 9,
    }
}

// The node of the code c, whose parts are the nodes l and r. `1` is node 0; a treatment has the letter of its event, which is the node l.
fn make_node(nodes: &mut [u8], c: u8, l: u8, r: u8) -> u8
    requires { Roomy nodes.old × (l < 192) }
    ensures { Leaves nodes.new result (node nodes.old c l r) }
{
    let k = code_kind(c);
    match k {
        1 => 0,
        0 => make(nodes, 0, 0, 0, c - 97),
        6 => make(nodes, 6, 0, 0, c - 65),
        4 => make(nodes, 4, r, 0, 0),
        7 => {
            let a = nodes[l as usize + 576];
            make(nodes, 7, 0, r, a)
        }
        _ => make(nodes, k, l, r, 0),
    }
}

// All zero.
pub fn clear(nodes: &mut [u8])
    ensures { nodes.new ≡ replicate (length nodes.old) 0 }
{
    let mut i = 0;
    while i < nodes.len() {
        nodes[i] = 0;
        i += 1;
    }
}

// The table of the nodes of the program whose postorder is the first n of `code` and `left`; the answer is its root.
// Ruled out (must-fail/): equal nodes added twice.
pub fn make_nodes(code: &[u8], left: &[u8], n: usize, nodes: &mut [u8]) -> usize
    requires { Given code.now left.now n (length nodes.old) }
    ensures { Numbered code.now left.now n nodes.new result }
{
    clear(nodes);
    nodes[0] = 1;
    nodes[576] = 1;
    // the node of each place passed
    let mut number: [u8; 192] = [0; 192];
    let mut last: u8 = 0;
    let mut i = 0;
    while i < n {
        let at = left[i] as usize;
        last = make_node(nodes, code[i], number[at], last);
        number[i] = last;
        i += 1;
    }
    last as usize
}

// The larger of two.
fn larger(a: u8, b: u8) -> u8
    ensures { result ≡ max a b }
{
    if a < b { b } else { a }
}

// What a node of the kind k weighs whose parts weigh l and r.
fn row_weight(k: u8, l: u8, r: u8) -> u8
    requires { row_weight k l r ≤ 255 }
    ensures { result ≡ row_weight k l r }
{
    match k {
        0 => 1,
        2 => larger(larger(1, l) + 1, r),
        3 | 9 => larger(1, l) + larger(1, r) + 1,
        4 => larger(1, l) + 1,
        5 => larger(l + 1, r),
        7 => r,
        8 => larger(l, r),
        _ => 0,
    }
}

// The weight of each node, in w; what lies behind them stays.
pub fn weigh(nodes: &[u8], w: &mut [u8])
    requires { Weighable nodes.now (length w.old) }
    ensures { Weighed nodes.now w.old w.new }
{
    let count = nodes[576] as usize;
    let mut i = 0;
    while i < count {
        let l = nodes[i + 192] as usize;
        let r = nodes[i + 384] as usize;
        w[i] = row_weight(nodes[i], w[l], w[r]);
        i += 1;
    }
}
