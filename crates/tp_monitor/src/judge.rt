// The verdict on a formula by what a trace tells.
ghost use Rattle.std.specs.Prelude.{◌≡◌, ◌≤◌, ◌<◌, length, IfOk, IsErrOf};
ghost use Rattle.std.specs.List.{flat_map};
ghost use Rattle.tp_meaning.specs.Interval.{kinds_of};
ghost use Rattle.tp_store.specs.Known.{lasting_facts};
ghost use Rattle.tp_verdict.specs.Code.{verdict_of};
ghost use Rattle.tp_verdict.specs.Read.{wide_tree};
ghost use Rattle.tp_verdict.specs.Trace.{whole_verdict};
ghost use Rattle.tp_verdict.specs.VerdictLaws.{StatesAreOfKinds};
ghost use Rattle.tp_monitor.specs.declared.judge.MonitorRefusal.TheVariants.{NoMemory as refused_memory};
ghost use Rattle.tp_monitor.specs.Seen.{wide_seen};
ghost use Rattle.tp_monitor.specs.Told.{state_limit, verdict_by};
ghost use Rattle.tp_monitor.specs.Standing.{StandFor};

use crate::filling::{once_each, state_stores};
use crate::told::{lasting_of_all, told_states};
use crate::wide::Wide;
use std::alloc::Global;
use tp_show::Trace;
use tp_value::{Fact, Facts, NoMemory};
use tp_verdict::{Verdict, verdict_on};

/// The greatest number of states that a trace may have, to be judged.
pub const STATE_LIMIT: usize = 400;

/// Why a trace isn't judged.
#[derive(Clone, Copy, Debug, PartialEq, Eq)]
pub enum MonitorRefusal {
    /// It has more states than are judged.
    TraceTooLong,
    NoMemory,
}

impl From<NoMemory> for MonitorRefusal {
    ghost from_gives = { λ _ r. r ≡ refused_memory };

    fn from(_: NoMemory) -> MonitorRefusal {
        MonitorRefusal::NoMemory
    }
}

// The verdict by what is told of the states, where the lasting facts stand for all that are told.
fn verdict_with(
    alloc: Global,
    wide: &Wide,
    told: &[Facts],
    lasting: &[Fact],
) -> Result<Verdict, NoMemory>
    requires some { 0 < length told.now }
    requires variables { StatesAreOfKinds (kinds_of wide.now.globals) told.now }
    requires lasting { StandFor lasting.now (flat_map lasting_facts told.now) }
    ensures { IfOk result (λ answer.
        verdict_of answer ≡ whole_verdict (wide_tree wide.now.formula) told.now) }
{
    match state_stores(alloc, &wide.globals, told, lasting)? {
        None => Ok(Verdict::No),
        Some(stores) => verdict_on(alloc, &wide.formula, stores.as_slice()),
    }
}

// The verdict by what is told of the states.
fn verdict_by_states(alloc: Global, wide: &Wide, told: &[Facts]) -> Result<Verdict, NoMemory>
    requires some { 0 < length told.now }
    requires variables { StatesAreOfKinds (kinds_of wide.now.globals) told.now }
    ensures { IfOk result (λ answer.
        verdict_of answer ≡ whole_verdict (wide_tree wide.now.formula) told.now) }
{
    let all = lasting_of_all(alloc, told)?;
    let Some(lasting) = once_each(alloc, &wide.globals, all.as_slice())? else {
        return Ok(Verdict::No);
    };
    verdict_with(alloc, wide, told, lasting.items.as_slice())
}

/// Whether the formula holds on each interval that is as the trace tells, or on none, or what is told decides neither.
pub fn holds_on(alloc: Global, wide: &Wide, trace: &Trace) -> Result<Verdict, MonitorRefusal>
    requires { 0 < length trace.now }
    ensures verdict { IfOk result (λ v.
        verdict_of v ≡ verdict_by (wide_seen wide.now) trace.now) }
    ensures within { IfOk result (λ v. length trace.now ≤ state_limit) }
    ensures too_long { IsErrOf result MonitorRefusal.TraceTooLong
        → state_limit < length trace.now }
{
    if trace.states.len() > STATE_LIMIT {
        return Err(MonitorRefusal::TraceTooLong);
    }
    let told = told_states(alloc, &wide.globals, trace.states.as_slice())?;
    let verdict = verdict_by_states(alloc, wide, told.as_slice())?;
    Ok(verdict)
}
