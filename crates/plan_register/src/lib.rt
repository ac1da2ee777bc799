// The calls as C and Rust see them: numbers and byte slices in, a struct of numbers out. Each name begins with the library's.
#![tactic(auto)]

ghost use Rattle.std.specs.Prelude.{◌≡◌, ◌≤◌};
ghost use Rattle.canonical.specs.Represent.{Represented, TerminalRepresented};
ghost use Rattle.canonical.specs.Same.{Compared, TerminalCompared};
ghost use Rattle.bounds.specs.Prune.{pruned_to};
ghost use Rattle.bounds.specs.Demand2.{Prunes};
ghost use Rattle.calls.specs.Calls.{opened, entered, struck, counted, terminal_entered, placed, shape};
ghost use Rattle.refusals.specs.Numbers.{asked_number};
ghost use Rattle.canonical.specs.Answers.{order_rows, order_columns, matching_number, matching_agreed};

use bounds::counted::Counted;
use bounds::prune;
use canonical::answers::Match;
use canonical::callers::{OrderSystem, Terminal};
use canonical::{represent, same};
use permutations::columns::ColumnPermutation;
use permutations::orders::Orders;
use refusals::Refusal;
use register::answers::Placed;
use register::{counts, entering, opening, striking};

// The number, the row order and the column order. C reads all of them in any case, so this is a struct of numbers.
#[repr(C)]
#[derive(Clone, Copy)]
pub struct Arranged {
    pub number: u32,
    pub rows: [u8; 8],
    pub columns: [u8; 16],
}

// The number, how many leading cells of the two representatives agree, the row order and the column order, likewise.
#[repr(C)]
#[derive(Clone, Copy)]
pub struct Matched {
    pub number: u32,
    pub agreed: u32,
    pub rows: [u8; 8],
    pub columns: [u8; 16],
}

// What a terminal's represent returns. A struct of its own, since the types that C sees have no parameters.
#[repr(C)]
#[derive(Clone, Copy)]
pub struct TerminalArranged {
    pub number: u32,
    pub rows: [u8; 5],
    pub columns: [u8; 16],
}

// What a terminal's same returns, likewise.
#[repr(C)]
#[derive(Clone, Copy)]
pub struct TerminalMatched {
    pub number: u32,
    pub agreed: u32,
    pub rows: [u8; 5],
    pub columns: [u8; 16],
}

// The orders; where there are none, those that move nothing.
fn or_starting<const N: usize>(orders: Option<Orders<N>>) -> Orders<N>
    requires { N ≤ 256 }
    ensures rows { result.rows.at ≡ order_rows orders.entry }
    ensures columns { result.columns.at ≡ order_columns orders.entry }
{
    match orders {
        Some(orders) => orders,
        None => Orders::identity(N, ColumnPermutation::WIDTH),
    }
}

// The number of the first no, or 0.
fn number<T>(answer: &Result<T, Refusal>) -> u32
    ensures { result ≡ asked_number answer.now }
{
    match answer {
        Ok(_) => 0,
        Err(refusal) => (*refusal).into(),
    }
}

// The number of same, and how many leading cells agree.
fn found<const N: usize>(answer: &Result<Match<N>, Refusal>) -> (u32, u32)
    ensures number { result.0 ≡ matching_number answer.now }
    ensures agreed { result.1 ≡ matching_agreed answer.now }
{
    match answer {
        Ok(
            Match {
                agreed,
                orders: Some(_),
            },
        ) => (0, *agreed),
        Ok(
            Match {
                agreed,
                orders: None,
            },
        ) => (103, *agreed),
        Err(refusal) => ((*refusal).into(), 0),
    }
}

#[unsafe(no_mangle)]
pub extern "C" fn plan_register_represent(
    m: usize,
    n: usize,
    top: usize,
    grid: &[u8],
    out: &mut [u8],
) -> Arranged
    ensures { Represented m n top grid.now out.old (record { number = result.number; rows = result.rows; columns = result.columns; out = out.new }) }
{
    let answer = represent::represent::<OrderSystem, 8>(m, n, top, grid, out);
    let orders = or_starting(answer.ok());
    let rows = orders.rows.at;
    let columns = orders.columns.at;
    Arranged {
        number: number(&answer),
        rows,
        columns,
    }
}

#[unsafe(no_mangle)]
pub extern "C" fn plan_register_same(m: usize, n: usize, top: usize, a: &[u8], b: &[u8]) -> Matched
    ensures { Compared m n top a.now b.now (record { number = result.number; agreed = result.agreed; rows = result.rows; columns = result.columns }) }
{
    let answer = same::same::<OrderSystem, 8>(m, n, top, a, b);
    let (number, agreed) = found(&answer);
    let orders = or_starting(answer.ok().and_then(|found| found.orders));
    let rows = orders.rows.at;
    let columns = orders.columns.at;
    Matched {
        number,
        agreed,
        rows,
        columns,
    }
}

#[unsafe(no_mangle)]
pub extern "C" fn plan_register_prune(
    m: usize,
    n: usize,
    top: usize,
    low: &mut [u8],
    high: &mut [u8],
) -> Counted
    ensures { Prunes m n top low.old high.old (pruned_to result.number result.count low.new high.new) }
{
    prune::prune(m, n, top, low, high).into()
}

#[unsafe(no_mangle)]
pub extern "C" fn plan_register_open(
    m: usize,
    n: usize,
    top: usize,
    capacity: usize,
    register: &mut [u8],
) -> Placed
    ensures { placed result.number result.place register.new ≡ opened (shape m n top capacity) register.old }
{
    opening::open_register(m, n, top, capacity, register).into()
}

// Enters the class of a grid for a client. 0: its entry is new, and this client alone holds it, once. 101: its entry was there, and this
// client's holding is written, 1 higher. 15: the client is not 1 to 8. 9: nobody holds the class, and the register is full. 16: this
// client's holding is 999 already.
#[unsafe(no_mangle)]
pub extern "C" fn plan_register_enter(register: &mut [u8], client: usize, grid: &[u8]) -> Placed
    ensures { placed result.number result.place register.new ≡ entered register.old client grid.now }
{
    entering::enter(register, client, grid).into()
}

// Strikes the class of a grid for a client. 0: this client's holding is written, 1 lower, or where nobody holds the class then its entry
// is taken out. 15: the client is not 1 to 8. 10: this client holds none.
#[unsafe(no_mangle)]
pub extern "C" fn plan_register_strike(register: &mut [u8], client: usize, grid: &[u8]) -> Placed
    ensures { placed result.number result.place register.new ≡ struck register.old client grid.now }
{
    striking::strike(register, client, grid).into()
}

#[unsafe(no_mangle)]
pub extern "C" fn plan_register_count(register: &[u8], low: &[u8], high: &[u8]) -> Counted
    ensures { placed result.number result.count register.now ≡ counted register.now low.now high.now }
{
    counts::count(register, low, high).into()
}

#[unsafe(no_mangle)]
pub extern "C" fn plan_register_terminal_represent(
    m: usize,
    n: usize,
    top: usize,
    grid: &[u8],
    out: &mut [u8],
) -> TerminalArranged
    ensures { TerminalRepresented m n top grid.now out.old (record { number = result.number; rows = result.rows; columns = result.columns; out = out.new }) }
{
    let answer = represent::represent::<Terminal, 5>(m, n, top, grid, out);
    let orders = or_starting(answer.ok());
    let rows = orders.rows.at;
    let columns = orders.columns.at;
    TerminalArranged {
        number: number(&answer),
        rows,
        columns,
    }
}

#[unsafe(no_mangle)]
pub extern "C" fn plan_register_terminal_same(
    m: usize,
    n: usize,
    top: usize,
    a: &[u8],
    b: &[u8],
) -> TerminalMatched
    ensures { TerminalCompared m n top a.now b.now (record { number = result.number; agreed = result.agreed; rows = result.rows; columns = result.columns }) }
{
    let answer = same::same::<Terminal, 5>(m, n, top, a, b);
    let (number, agreed) = found(&answer);
    let orders = or_starting(answer.ok().and_then(|found| found.orders));
    let rows = orders.rows.at;
    let columns = orders.columns.at;
    TerminalMatched {
        number,
        agreed,
        rows,
        columns,
    }
}

// The same as plan_register_enter at a terminal, and 14: the register has 6 to 8 rows.
#[unsafe(no_mangle)]
pub extern "C" fn plan_register_terminal_enter(
    register: &mut [u8],
    client: usize,
    grid: &[u8],
) -> Placed
    ensures { placed result.number result.place register.new ≡ terminal_entered register.old client grid.now }
{
    entering::enter_at_terminal(register, client, grid).into()
}
