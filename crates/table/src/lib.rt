// Tables of layout 1: what start and step answer, for any bytes. Nothing of a table is copied. `valid` has the check of No. 19.
#![tactic(auto)]

ghost use Rattle.std.specs.Prelude.{◌≡◌, ◌+◌, ◌*◌, ◌≤◌, ◌<◌, length, get_or, IfSome};
ghost use Rattle.paper.specs.Calls.{eight, table_start, table_step, index_from, letter_bytes, entered};
ghost use Rattle.paper.specs.IsTable.{table_modules, table_events};
ghost use Rattle.refusals.specs.Refusals.{found};
ghost use Rattle.counts.specs.Counts.{Counted};
ghost use Rattle.table.specs.Answers.{stepped, fields_from};

use counts::Counts;
use fields::FieldReader;
use refusals::{Reason, Refusal};
use valid::checked;

// A state, and an order for each module, zeros up to eight.
#[derive(Clone, Copy, PartialEq, Eq, Debug)]
pub struct Answer {
    pub state: usize,
    pub orders: [u8; 8],
}

// A field for each module, side by side, and zeros up to eight.
#[tactic(auto, using(crate::proofs::Eight::orders_none, crate::proofs::Eight::orders_more, crate::proofs::Eight::field_byte))]
fn orders(table: &[u8], counts: Counts, bit: usize, width: usize) -> [u8; 8]
    requires { Counted table.now counts × ((width ≤ 2) × (bit + width * counts.modules ≤ 8 * length table.now)) }
    ensures { result ≡ eight (fields_from table.now bit width counts.modules) }
{
    let mut orders = [0; 8];
    for module in 0..counts.modules {
        orders[module] = FieldReader::new(table, bit + width * module).next(width) as u8;
    }
    orders
}

// The byte of a letter, modules before events.
#[tactic(auto, using(fields::proofs::Fields::field_lt))]
fn letter_byte(table: &[u8], counts: Counts, index: usize) -> u8
    requires { Counted table.now counts × (index < counts.modules + counts.events) }
    ensures { result ≡ get_or (letter_bytes (table_modules table.now) (table_events table.now)) index 0 }
{
    let name = fields::get(table, 24 + 5 * index, 5) as u8;
    if index < counts.modules {
        b'a' + name
    } else {
        b'A' + name
    }
}

// Where a letter stands among the table's.
fn letter_index(table: &[u8], counts: Counts, letter: u8) -> Option<usize>
    requires { Counted table.now counts }
    ensures index { found result ≡ index_from 0 letter (letter_bytes (table_modules table.now) (table_events table.now)) }
    ensures within { IfSome result (λ i. i < counts.modules + counts.events) }
{
    (0..counts.letters()).find(|&index| letter_byte(table, counts, index) == letter)
}

// The entry of a state and a letter of the table.
#[tactic(auto, using(counts::proofs::Counted::entry_within, counts::proofs::Counted::short_all))]
fn entry_at(table: &[u8], counts: Counts, state: usize, index: usize) -> Result<Answer, Refusal>
    requires { Counted table.now counts × ((state < counts.states) × (index < counts.modules + counts.events)) }
    ensures { stepped result ≡ entered table.now state index }
{
    let bit = counts.entry_place(state, index);
    if fields::get(table, bit, 1) != 1 {
        return Err(Reason::NotRunning.into());
    }
    let state = fields::get(table, bit + 1, 9);
    Ok(Answer {
        state,
        orders: orders(table, counts, bit + 10, 2),
    })
}

// Table start: No. 19, or state 0 and the modules that run.
pub fn start(table: &[u8]) -> Result<Answer, Refusal>
    ensures { stepped result ≡ table_start table.now }
{
    let counts = checked(table).ok_or(Reason::NoTable)?;
    let bit = 24 + 5 * counts.letters() + counts.events;
    Ok(Answer {
        state: 0,
        orders: orders(table, counts, bit, 1),
    })
}

// Table step: No. 19 to 22, or the next state and one order for each module.
pub fn step(table: &[u8], state: usize, letter: u8) -> Result<Answer, Refusal>
    ensures { stepped result ≡ table_step table.now state letter }
{
    let counts = checked(table).ok_or(Reason::NoTable)?;
    if counts.states <= state {
        return Err(Reason::NoState.into());
    }
    let index = letter_index(table, counts, letter).ok_or(Reason::ForeignLetter)?;
    entry_at(table, counts, state, index)
}
