// Closures by an agenda and by passes: that they come to the same rests, and what they try in each order. Whole runs in each order stand in
// tests/orders.txt.
use crate::closing::{ClosedState, Closing, closed_source};
use crate::expected::{holds, same_text};
use crate::tables::{number, parts};
use std::alloc::Global;
use std::process::Abort;
use std::test::Fail;
use tp_step::{Ending, ItemIds, Order, Strategy, Tally};
use tp_value::{Fact, Facts, NoMemory};

// Whether this fact is among them.
fn has_fact(facts: &Facts, fact: &Fact) -> bool {
    for other in &facts.items {
        if other.path == fact.path && other.shape == fact.shape {
            return true;
        }
    }
    false
}

// Whether both are the same facts, in any order. Each is there once.
fn are_same_facts(facts: &Facts, others: &Facts) -> bool {
    for fact in &facts.items {
        if !has_fact(others, fact) {
            return false;
        }
    }
    facts.items.len() == others.items.len()
}

// Expects that the closure came to a rest, and to the same one as another: the root's mark, what is known, and as many reductions and live items.
fn expect_same_rest(rt: &impl Abort, found: &ClosedState, expected: &ClosedState, row: &str) {
    let is_rest = matches!(&found.ending, Ending::Rest);
    holds(rt, is_rest && found.root == expected.root, row);
    let picks = found.tally.picks.items.len() == expected.tally.picks.items.len();
    let live = found.live.items.len() == expected.live.items.len();
    holds(rt, picks && live, row);
    holds(rt, are_same_facts(&found.facts, &expected.facts), row);
}

// Programs whose first states come to a rest, some with a table of inputs: chains in bad order, loops whose parts have length 0, chops,
// projections, locals, calls, lists by items and by shape, displays, inputs, ends that are known late or never.
const SOURCES: &str = "
run A = B and B = C and C = 3 and empty. #
run A = B + C and C = D * 2 and B = D + 1 and D = E and E = 4 and empty. #
run (for i < 4 do (L[i] = i * i and empty)) and A = L[3] and |L| = 4. #
run (while A > 3 do empty) and A = B and B = 2. #
run (empty and A = B) ; ((empty and B = C) ; (empty and C = 2)). #
run ((A = B and skip) ; (A = 2 and skip)) and B = C and C = 1. #
run (len(2) and always(A = 1)) proj (len(2) and I = A and always(display(I))). #
run (empty and A = B) proj (B = 2 and empty). #
run exists X, Y: (A = X and X = Y + 1 and Y = B and B = 2 and empty). #
define double(x, Y) = Y = x + x. run double(B, C) and double(A, B) and double(1, A) and empty. #
run A = L[0] + L[1] and L[1] = B and B = 2 and L[0] = 1 and |L| = 2 and empty. #
run L = <A,<B>> and M = L and B = 2 and A = B + 1 and empty. #
run |L| = |M| and M = <1,<2,3>> and L[0] = M[1] and L[1] = M[0] and empty. #
run (forall i < 3: L[i] = A) and list(L,3) and A = 7. #
run display(A, L) and A = |L| and L = <1,2> and empty. #
run A = B + 1 and input(B,p) and display(A) and empty. # p=4
run input(L[A],p) and A = B and B = 1 and |L| = 2 and empty. # p=<3>
run (if A = 1 then B = 2 else B = 3) and A = C and C = 1 and empty. #
run fin(A = B) and keep(A = 1) and B = 2 and empty. #
run always(A = B) and B gets B + 1 and B = 0 and len(2). #
run next (A = B) and B <- A and B = 1 and more. #
run A = B and B = C and D = 1. #
run always(A = 1) and (B = 2 ; C = 3). #
run A = B and empty and (true ; C = A). #
";

const ORDERS: [Order; 4] = [Order::First, Order::Last, Order::Seed(0), Order::Seed(7)];

// Few reductions are made in a state of any of them.
const AMPLE: u64 = 99;

// Closes the first state by both, in this order, and expects that they come to the same as passes in the first order.
fn expect_same_rests(rt: &(impl Abort + AllocGlobal), row: &str, order: Order) -> Result<(), Fail> {
    let alloc = rt.alloc();
    let (source, table) = row.split_once('#').ok_or("no row")?;
    let first = Strategy {
        order: Order::First,
        room: AMPLE,
    };
    let strategy = Strategy { order, room: AMPLE };
    let expected = closed_source(alloc, source, table, Closing::ByPasses, first)?;
    let by_passes = closed_source(alloc, source, table, Closing::ByPasses, strategy)?;
    expect_same_rest(rt, &by_passes, &expected, source);
    let by_agenda = closed_source(alloc, source, table, Closing::ByAgenda, strategy)?;
    expect_same_rest(rt, &by_agenda, &expected, source);
    Ok(())
}

#[test]
fn both_closures_come_to_the_same_rests(rt: HostRuntime) -> Result<(), Fail> {
    for row in SOURCES.trim().lines() {
        for order in ORDERS {
            expect_same_rests(&rt, row, order)?;
        }
    }
    Ok(())
}

// How a closure ended, with what it tells.
fn ending_text(alloc: Global, ending: &Ending) -> Result<String, NoMemory> {
    let text = match ending {
        Ending::Rest => format!(in alloc; "rest")?,
        Ending::Clash(clash) => format!(in alloc; "clash {clash:?}")?,
        Ending::Missing(port) => {
            let port = str::from_utf8(port.as_slice()).unwrap_or("no text");
            format!(in alloc; "missing {port}")?
        }
        Ending::Over(limit) => format!(in alloc; "over {limit:?}")?,
    };
    Ok(text)
}

// What a closure did: the items that it reduced, those that waited, those that rested, and how it ended.
fn tally_text(alloc: Global, tally: &Tally, ending: &Ending) -> Result<String, NoMemory> {
    let picks = tally.picks.items.as_slice();
    let mut waits = ItemIds::new(alloc);
    for wait in &tally.waits.items {
        waits.items.push(wait.item)?;
    }
    let waits = waits.items.as_slice();
    let rests = tally.rests.items.as_slice();
    let ending = ending_text(alloc, ending)?;
    let text = format!(in alloc; "{picks:?} waits {waits:?} rests {rests:?} {ending}")?;
    Ok(text)
}

// A program, an order, how many reductions there may be; and what is picked, what waits, what rests, and how it ends. A chain, of which
// each part is known by the next one; equations of which each can be reduced at once; a sum that waits for one part and then for the
// other; and a region that goes on.
const PICKS: &str = "
run A = B and B = C and C = 3 and empty. # first # 9 # [0, 3, 2, 1, 4] waits [1, 2] rests [] rest
run A = B and B = C and C = 3 and empty. # last # 9 # [0, 4, 3, 2, 1] waits [] rests [] rest
run A = B and B = C and C = 3 and empty. # 0 # 9 # [0, 4, 3, 2, 1] waits [1] rests [] rest
run A = B and B = C and C = 3 and empty. # 3 # 9 # [0, 4, 3, 2, 1] waits [2, 1] rests [] rest
run A = 1 and B = 2 and C = 3 and D = 4 and empty. # first # 9 # [0, 1, 2, 3, 4, 5] waits [] rests [] rest
run A = 1 and B = 2 and C = 3 and D = 4 and empty. # last # 9 # [0, 5, 4, 3, 2, 1] waits [] rests [] rest
run A = 1 and B = 2 and C = 3 and D = 4 and empty. # 0 # 9 # [0, 3, 1, 4, 2, 5] waits [] rests [] rest
run A = 1 and B = 2 and C = 3 and D = 4 and empty. # 18446744073709551615 # 9 # [0, 4, 5, 2, 1, 3] waits [] rests [] rest
run A = B and C = 1. # first # 9 # [0, 2] waits [1] rests [] rest
run A = B + C and B = 2 and C = 1. # first # 9 # [0, 2, 3, 1] waits [1, 1] rests [] rest
run A = B + C and B = 2 and C = 1. # last # 9 # [0, 3, 2, 1] waits [] rests [] rest
run more ; true. # first # 9 # [0, 1] waits [] rests [2] rest
run more ; true. # last # 9 # [0, 1] waits [2] rests [2] rest
";

// The same of each kind of formula, some beside what decides what they wait for. What is for the next state, or shown, is never tried.
const KINDS: &str = "
run next A = 1. # first # 9 # [0, 1, 2] waits [] rests [] rest
run always(true). # first # 9 # [0, 1] waits [2] rests [] rest
run more and always(true). # first # 9 # [0, 1, 2, 3, 4] waits [] rests [] rest
run empty and always(true). # first # 9 # [0, 1, 2, 3, 4] waits [] rests [] rest
run fin(true). # first # 9 # [0] waits [1, 2] rests [] rest
run empty and fin(true). # first # 9 # [0, 1, 2, 3, 4, 5] waits [] rests [] rest
run if true then true else empty. # first # 9 # [0, 1] waits [] rests [] rest
run len(1). # first # 9 # [0, 1] waits [] rests [] rest
run display(6). # first # 9 # [0] waits [] rests [] rest
run A <- 1. # first # 9 # [0, 1] waits [2, 3] rests [] rest
run exists A: A = 1. # first # 9 # [0, 1] waits [] rests [] rest
define p(x) = A = x. run p(1). # first # 9 # [0, 1] waits [] rests [] rest
define p(x) = true. run p(A). # first # 9 # [] waits [0] rests [] rest
run true ; true. # first # 9 # [0, 1] waits [2] rests [] rest
run while false do true. # first # 9 # [0, 1, 2] waits [] rests [] rest
run for i < 0 do true. # first # 9 # [0, 1] waits [] rests [] rest
run empty proj empty. # first # 9 # [0, 1] waits [] rests [2] rest
";

// The same of programs that come to a limit or a clash, or take inputs.
const STOPS: &str = "
run A = B and B = C and C = 3 and empty. # first # 0 # [] waits [] rests [] over Reductions
run A = B and B = C and C = 3 and empty. # first # 2 # [0, 3] waits [1, 2] rests [] over Reductions
run A = B and B = C and C = 3 and empty. # last # 3 # [0, 4, 3] waits [] rests [] over Reductions
run A = 170141183460469231731687303715884105727 + 1. # first # 9 # [] waits [] rests [] over Number
run false and A = 1. # last # 9 # [0, 2] waits [] rests [] clash False
run A = 1 and more and empty. # last # 9 # [0, 3] waits [] rests [] clash Marks { depth: 0 }
run A = L[2] and |L| = 2. # first # 9 # [0, 2] waits [1] rests [] clash NoValue(NoElement)
run input(A,p) and B = 1. # last # 9 # [0, 2] waits [] rests [] missing p
run input(A,q) and A = B. # last # 9 # [0, 1, 2] waits [2] rests [] rest
run input(L[B],q) and B = 0. # first # 9 # [0, 2, 1] waits [1] rests [] rest
";

// What passes pick, which file no waits. Four conjuncts, of which each is known by the next one; and five of which each can be reduced at once.
const PASSES: &str = "
run A = B and B = C and C = 3 and empty. # first # 9 # [0, 3, 4, 2, 1] waits [] rests [] rest
run A = B and B = C and C = 3 and empty. # last # 9 # [0, 4, 3, 2, 1] waits [] rests [] rest
run A = B and B = C and C = 3 and empty. # 7 # 9 # [0, 3, 4, 2, 1] waits [] rests [] rest
run A = B and B = C and C = 3 and empty. # last # 3 # [0, 4, 3] waits [] rests [] over Reductions
run A = 1 and B = 2 and C = 3 and D = 4 and empty. # 0 # 9 # [0, 3, 4, 5, 1, 2] waits [] rests [] rest
run A = 1 and B = 2 and C = 3 and D = 4 and empty. # 18446744073709551615 # 9 # [0, 4, 5, 1, 2, 3] waits [] rests [] rest
run A = 1 and B = 2 and C = 3 and D = 4 and empty. # first # 9 # [0, 1, 2, 3, 4, 5] waits [] rests [] rest
run A = 1 and B = 2 and C = 3 and D = 4 and empty. # last # 9 # [0, 5, 4, 3, 2, 1] waits [] rests [] rest
";

// The inputs of each of these.
const TABLE: &str = "q=1";

// The order that a word names.
fn order_named(word: &str) -> Result<Order, Fail> {
    match word {
        "first" => Ok(Order::First),
        "last" => Ok(Order::Last),
        seed => {
            let seed = number(seed)?;
            Ok(Order::Seed(seed))
        }
    }
}

// Closes the first state, and expects what the row says.
fn expect_tally(rt: &(impl Abort + AllocGlobal), row: &str, closing: Closing) -> Result<(), Fail> {
    let alloc = rt.alloc();
    let row = parts(alloc, row, '#')?;
    let [source, order, room, expected] = row.as_slice() else {
        return Err("no row".into());
    };
    let order = order_named(order)?;
    let room = number(room)?;
    let strategy = Strategy { order, room };
    let state = closed_source(alloc, source, TABLE, closing, strategy)?;
    let text = tally_text(alloc, &state.tally, &state.ending)?;
    same_text(rt, text.as_str(), expected, source);
    Ok(())
}

#[test]
fn each_order_tries_the_item_whose_turn_it_is(rt: HostRuntime) -> Result<(), Fail> {
    for row in PASSES.trim().lines() {
        expect_tally(&rt, row, Closing::ByPasses)?;
    }
    for table in [PICKS, KINDS, STOPS] {
        for row in table.trim().lines() {
            expect_tally(&rt, row, Closing::ByAgenda)?;
        }
    }
    Ok(())
}
