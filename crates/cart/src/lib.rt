// The six public calls as a static library for boards and hosts (include/cart.h): a `&[u8]` is a pointer and a length in C, and the calls ask for nothing but
// that these are right. Numbers and byte slices in, one plain struct out.
#![tactic(auto)]

ghost use Rattle.std.specs.Prelude.{◌≡◌};
ghost use Rattle.paper.specs.Parse.{parse};
ghost use Rattle.paper.specs.Refusals.{basic, adaptive};
ghost use Rattle.paper.specs.Calls.{compiled, table_start, table_step, live_start, live_step};
ghost use Rattle.coding.specs.Code.{coding};
ghost use Rattle.table.specs.Answers.{stepped};
ghost use Rattle.cart.specs.Outcome.{compiles, outcome, lived};

use refusals::Refusal;

// Number and place of a refusal, all else zero; or number 0, how many states the table has and how many bytes.
#[repr(C)]
#[derive(Clone, Copy)]
pub struct CompileAnswer {
    pub number: usize,
    pub place: usize,
    pub states: usize,
    pub size: usize,
}

// Number and place of a refusal, all else zero; or number 0, the state and one order for each module, zeros up to eight.
#[repr(C)]
#[derive(Clone, Copy)]
pub struct TableAnswer {
    pub number: usize,
    pub place: usize,
    pub state: usize,
    pub orders: [u8; 8],
}

// As C sees what the table calls answer.
impl From<Result<table::Answer, Refusal>> for TableAnswer {
    ghost from_gives = { λ answer c. outcome c ≡ stepped answer };

    fn from(answer: Result<table::Answer, Refusal>) -> Self {
        match answer {
            Ok(answer) => {
                let orders = answer.orders;
                TableAnswer {
                    number: 0,
                    place: 0,
                    state: answer.state,
                    orders,
                }
            }
            Err(refusal) => TableAnswer {
                number: refusal.reason.number(),
                place: refusal.place,
                state: 0,
                orders: [0; 8],
            },
        }
    }
}

// Number and place of a refusal, all else zero; or number 0 and one order for each module, zeros up to eight.
#[repr(C)]
#[derive(Clone, Copy)]
pub struct LiveAnswer {
    pub number: usize,
    pub place: usize,
    pub orders: [u8; 8],
}

// Compile for Basic: No. 1 to 18, or the table at the front of `output`. A refusal leaves `output` as it was; `work` is zero after every call but No. 1.
#[unsafe(no_mangle)]
pub extern "C" fn cart_compile_basic(
    file: &[u8],
    output: &mut [u8],
    work: &mut [u8],
) -> CompileAnswer
    ensures { compiles result output.new work.new ≡ compiled parse basic file.now output.old work.old }
{
    let made = compiler::compile_basic(file, output, work);
    CompileAnswer {
        number: made.number,
        place: made.place,
        states: made.states,
        size: made.size,
    }
}

// Compile for Adaptive: No. 1 to 14, 17 and 18, or the table at the front of `output`. The slices are left as by the call for Basic.
#[unsafe(no_mangle)]
pub extern "C" fn cart_compile_adaptive(
    file: &[u8],
    output: &mut [u8],
    work: &mut [u8],
) -> CompileAnswer
    ensures { compiles result output.new work.new ≡ compiled parse adaptive file.now output.old work.old }
{
    let done = compiler::compile_adaptive(file, output, work);
    CompileAnswer {
        number: done.number,
        place: done.place,
        states: done.states,
        size: done.size,
    }
}

// Table start: No. 19, or state 0 and the modules that run.
#[unsafe(no_mangle)]
pub extern "C" fn cart_table_start(table: &[u8]) -> TableAnswer
    ensures { outcome result ≡ table_start table.now }
{
    table::start(table).into()
}

// Table step: No. 19 to 22, or the next state and one order for each module.
#[unsafe(no_mangle)]
pub extern "C" fn cart_table_step(table: &[u8], state: usize, letter: u8) -> TableAnswer
    ensures { outcome result ≡ table_step table.now state letter }
{
    table::step(table, state, letter).into()
}

// Live start: No. 1 to 14, or the start's code in `live`, and the modules that run. A refusal leaves `live` as it was.
#[unsafe(no_mangle)]
pub extern "C" fn cart_live_start(file: &[u8], live: &mut [u8]) -> LiveAnswer
    ensures { lived result live.new ≡ live_start parse coding file.now live.old }
{
    let began = engine::start(file, live);
    let orders = began.orders;
    LiveAnswer {
        number: began.number,
        place: began.place,
        orders,
    }
}

// Live step: No. 1 to 14, 23, 21, 22, or the next state's code in `live`, and one order for each module. A refusal leaves `live` as it was.
#[unsafe(no_mangle)]
pub extern "C" fn cart_live_step(file: &[u8], live: &mut [u8], letter: u8) -> LiveAnswer
    ensures { lived result live.new ≡ live_step parse coding file.now live.old letter }
{
    let went = engine::step(file, live, letter);
    let orders = went.orders;
    LiveAnswer {
        number: went.number,
        place: went.place,
        orders,
    }
}
