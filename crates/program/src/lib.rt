// A program's nodes, each with the numbers of its parts, which stand below it; and what else is read of a file. The rooms above match on `Node`; nothing
// takes `Nodes` and `Program` yet.
#![tactic(auto)]

ghost use Rattle.std.specs.Prelude.{◌≡◌, ◌≤◌, ◌<◌, ◌↔◌, IsTrue};
ghost use Rattle.laws.specs.Nodes.{kind, left, right, letter, count};
ghost use Rattle.program.specs.Rows.{alone, row_of, appended, kind_in, left_in, right_in, letter_in};

use arrayvec::ArrayVec;
use std::marker::Model;

// What a node is: the numbers of its parts, and the letter of a name. A treatment has its event's letter and what is done then.
#[derive(Clone, Copy, PartialEq, Eq, Debug)]
pub enum Node {
    Module(u8),
    One,
    Sequence(u8, u8),
    Par(u8, u8),
    Star(u8),
    Act(u8, u8),
    Event(u8),
    Treat(u8, u8),
    Either(u8, u8),
    Both(u8, u8),
}

impl Node {
    // Whether it is a term's, and no interruption's.
    pub fn is_term(self) -> bool
        ensures { IsTrue result ↔ (kind_in self ≤ 5) }
    {
        !matches!(
            self,
            Node::Event(_) | Node::Treat(..) | Node::Either(..) | Node::Both(..)
        )
    }

    // The letter of a name or a treatment, 0 for what has none.
    pub fn letter(self) -> u8
        ensures { result ≡ letter_in self }
    {
        match self {
            Node::Module(letter) | Node::Event(letter) | Node::Treat(letter, _) => letter,
            _ => 0,
        }
    }
}

// The nodes of a program, no two alike; node 0 is `1`. Clauses see the table of `laws`.
#[derive(Drop)]
pub struct Nodes {
    rows: [Node; 192],
    len: usize,
}

impl Model for Nodes {
    ghost use Rattle.std.specs.Prelude.{◌≡◌, ◌≤◌, ℕ, List, length, get_or};

    ghost Value = { List ℕ };

    ghost use Rattle.program.specs.Rows.{columns};
    ghost use Rattle.program.specs.declared.Node.TheVariants.{Module, One};

    ghost view = { λ t. columns t.rows t.len };

    ghost invariant = { λ t. (length t.rows ≡ 192) × (1 ≤ t.len) × (t.len ≤ 192) × (get_or t.rows 0 (Module 0) ≡ One) };
}

impl Nodes {
    // Node 0 alone.
    pub fn new() -> Self
        ensures { result ≡ alone }
    {
        let mut rows = [Node::Module(0); 192];
        rows[0] = Node::One;
        Nodes { rows, len: 1 }
    }

    // How many there are.
    pub fn count(&self) -> usize
        ensures count { result ≡ count self.now }
        ensures some { 1 ≤ result }
        ensures few { result ≤ 192 }
    {
        self.len
    }

    // Node j.
    pub fn node(&self, j: usize) -> Node
        requires { j < 192 }
        ensures row { result ≡ row_of self.now j }
        ensures columns { (kind self.now j ≡ kind_in result) × (left self.now j ≡ left_in result) × (right self.now j ≡ right_in result) }
        ensures letter { 1 ≤ j → letter self.now j ≡ letter_in result }
        ensures first { j ≡ 0 → result ≡ Node.One }
    {
        self.rows[j]
    }

    // The letter of node j; the table has the count of nodes where node 0, which has none, would have it.
    pub fn letter(&self, j: usize) -> u8
        requires { j < 192 }
        ensures { result ≡ letter self.now j }
    {
        if j == 0 {
            self.count() as u8
        } else {
            self.node(j).letter()
        }
    }

    // One node more, behind the others.
    pub fn push(&mut self, node: Node)
        requires { count self.old < 192 }
        ensures { self.new ≡ appended self.old (kind_in node) (left_in node) (right_in node) (letter_in node) }
    {
        let Nodes { rows, len } = self;
        rows[*len] = node;
        *len += 1;
    }
}

// The letters of names as numbers from 0, so a and A are 0, ascending.
pub type Names = ArrayVec<u8, 8>;

// What is read of a file: the nodes with the weight of each, the root's number, the names, and which events are fugitive, by letter.
#[derive(Drop)]
pub struct Program {
    pub nodes: Nodes,
    pub weights: [u8; 192],
    pub root: usize,
    pub modules: Names,
    pub events: Names,
    pub fugitive: [bool; 26],
}
