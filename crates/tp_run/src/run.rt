// The run of a program, state by state.
ghost use Rattle.std.specs.Prelude.{◌≡◌, ◌+◌, ◌<◌, ◌≤◌, ℕ, Bool, List, Option, IfOk, IfSome, IsSomeAnd, OnErr, OnOk};
ghost use Rattle.std.specs.Option.{option_map};
ghost use Rattle.tp_kernel.specs.Read.{formula_tree};
ghost use Rattle.tp_meaning.specs.Fits.{ProgramFits};
ghost use Rattle.tp_check.specs.Read.{program_tree};
ghost use Rattle.tp_inputs.specs.Read.{inputs_of};
ghost use Rattle.tp_store.specs.Known.{new_store};
ghost use Rattle.tp_store.specs.Stock.{contents_in};
ghost use Rattle.tp_meaning.specs.Interval.{kinds_of};
ghost use Rattle.tp_scene.specs.Step.{waits};
ghost use Rattle.tp_scene.specs.Pick.{Moment, outcome_of};
ghost use Rattle.tp_scene.specs.Rest as rest;
ghost use Rattle.tp_scene.specs.Rest.{AtRest};
ghost use Rattle.tp_scene.specs.Laws.{IsSound};
ghost use Rattle.tp_scene.specs.Beginning.{first_moment};
ghost use Rattle.tp_decide.specs.Decided.{setting_of};
ghost use Rattle.tp_slots.specs.Kept.{IsWellKept, Lives};
ghost use Rattle.tp_slots.specs.Read.{scene_of};
ghost use Rattle.tp_step.specs.Answers.{moment_of};
ghost use Rattle.tp_step.specs.OfVariables.{CellIsOf};
ghost use Rattle.tp_run.specs.History.{Plan, plan_with, setting};
ghost use Rattle.tp_run.specs.Standing.{open_at, answered, spent, state_after, AnswersState, StateBecomes};
ghost use Rattle.tp_run.specs.Meaning.{StandsForItsProgram, AnswerMeans};
ghost use Rattle.tp_run.specs.Ordered.{IsNamedInOrder, TriesBeyond};
ghost use Rattle.tp_run.specs.EachOrder.{AnswerAgrees, AnswerHasNoDeadEnd};
ghost use Rattle.tp_run.specs.StateTries.{tally_of, HasRecordedNothing, IsTallyOf, CountsStateTries, BeginsNoState};
ghost use Rattle.tp_run.specs.Runs.{stands_at, standing_of, program_of, next_state_of, order_of, standing_place, store_of, carried_scene, last_scene_in, IsSettingsOf, IsRunOf, HasPicture, NextOf, RestTurns, StandIsKept, HasFirst, TurnIsOf, MadeIsOf};

use crate::limits::Limits;
use crate::picture::settled_picture;
use crate::tally::{clear_tally, no_tally};
use std::alloc::Global;
use std::mem;
use std::sync::ledger::Ledger;
use tp_agenda::close_by_agenda;
use tp_check::Program;
use tp_inputs::Inputs;
use tp_show::{Cell, Picture, Turn};
use tp_step::{
    Ending, Order, Scene, Setting, Settled, Steps, Strategy, Tally, Tried, advance, settled, start,
    try_item,
};
use tp_store::Store;
use tp_value::NoMemory;

/// What a state is made with. The run makes it anew for each state.
#[derive(Clone, Copy)]
struct Settings<'a> {
    globals: u64,
    limits: Limits,
    order: Order,
    setting: Setting<'a>,
}

/// Before a state, after the last answer with the scene in which the run ended, or given up for want of memory.
#[derive(Drop)]
enum Stand {
    Open(Scene),
    Answered(Turn, Scene),
    Spent,
}

/// The run of a program, state by state: what is run, and how; the number of the state that it makes next; where it stands; and what was
/// tried in the state that it began last.
#[derive(Drop)]
pub struct Run {
    alloc: Global,
    program: Program,
    inputs: Inputs,
    limits: Limits,
    order: Order,
    state: u64,
    store: Store,
    stand: Stand,
    pub(crate) tally: Tally,
}

/// Where a run stands after a state, and the state's answer.
#[derive(Drop)]
struct Made {
    stand: Stand,
    turn: Turn,
}

// The run ends with this answer, in this scene, and gives it again from then on.
fn stop(turn: Turn, scene: Scene) -> Result<Made, NoMemory>
    ensures stand { IfOk result (λ made. made.stand ≡ Stand.Answered turn scene) }
    ensures turn { IfOk result (λ made. made.turn ≡ turn) }
{
    let again = turn.copy()?;
    Ok(Made {
        stand: Stand::Answered(again, scene),
        turn,
    })
}

impl<'a> Settings<'a> {
    // The first cell that the waiting item of a scene at rest waits for.
    fn waits_for<L: Ledger>(
        &self,
        scene: &mut Scene,
        store: &mut Store,
        item: u64,
        steps: &mut Steps<L>,
    ) -> Result<Cell, NoMemory>
        requires kept { IsWellKept scene.old }
        requires sound { (kinds : List Bool)
            × IsSound (setting_of self.now.setting) kinds
            (moment_of scene.old (contents_in store.old)) }
        requires rests { AtRest (setting_of self.now.setting)
            (moment_of scene.old (contents_in store.old)) }
        requires item { rest.settled (scene_of scene.old) ≡ rest.waiting item }
        ensures cell { IfOk result (λ cell.
            (other : Option Cell)
            × (outcome_of (setting_of self.now.setting) (contents_in store.old)
            (scene_of scene.old) item ≡ waits cell other)) }
        ensures scene { OnOk result (scene_of scene.new ≡ scene_of scene.old) }
        ensures store { OnOk result (contents_in store.new ≡ contents_in store.old) }
        ensures kept { IsWellKept scene.new }
        ensures named { IfOk result (CellIsOf store.new.variables) }
        ensures steps { steps.new ≡ steps.old + 1 }
    {
        let tried = try_item(scene, item, store, &self.setting, 0, steps)?;
        let Tried::Waits(cell, _) = tried else {
            unreachable!();
        };
        Ok(cell)
    }

    // A state that ends the interval.
    fn finish(
        &self,
        scene: Scene,
        store: &Store,
        reductions: u64,
        picture: &mut Picture,
    ) -> Result<Made, NoMemory>
        requires { IsWellKept scene }
        ensures picture { OnOk result
            (HasPicture self.now.globals self.now.setting.state reductions
            (moment_of scene (contents_in store.now)) picture.new) }
        ensures stand { IfOk result (λ made.
            made.stand ≡ Stand.Answered (Turn.Finished self.now.setting.state) scene) }
        ensures turn { IfOk result (λ made. made.turn ≡ Turn.Finished self.now.setting.state) }
        ensures err { OnErr result (picture.new ≡ picture.old) }
    {
        let settled = settled_picture(&scene, store, self.globals, &self.setting, reductions)?;
        let length = self.setting.state;
        let made = stop(Turn::Finished { length }, scene)?;
        *picture = settled;
        Ok(made)
    }

    // A state that goes on: the store goes on to the next one.
    fn go_on(
        &self,
        scene: Scene,
        store: &mut Store,
        reductions: u64,
        picture: &mut Picture,
    ) -> Result<Made, NoMemory>
        requires goes { rest.settled (scene_of scene) ≡ rest.goes }
        requires kept { IsWellKept scene }
        ensures picture { OnOk result
            (HasPicture self.now.globals self.now.setting.state reductions
            (moment_of scene (contents_in store.old)) picture.new) }
        ensures stand { IfOk result (λ made.
            (next : Moment) × NextOf (moment_of scene (contents_in store.old)) next
            × (stands_at made.stand (contents_in store.new) ≡ open_at next)
            × (contents_in store.new ≡ next.store)) }
        ensures kept { IfOk result (λ made. StandIsKept made.stand) }
        ensures turn { IfOk result (λ made. made.turn ≡ Turn.Went) }
        ensures err { OnErr result (picture.new ≡ picture.old) }
    {
        let settled = settled_picture(&scene, store, self.globals, &self.setting, reductions)?;
        let next = advance(self.setting.alloc, scene)?;
        store.next_state();
        *picture = settled;
        Ok(Made {
            stand: Stand::Open(next),
            turn: Turn::Went,
        })
    }

    // A state whose closure is at rest.
    fn make_at_rest<L: Ledger>(
        &self,
        mut scene: Scene,
        store: &mut Store,
        reductions: u64,
        picture: &mut Picture,
        steps: &mut Steps<L>,
    ) -> Result<Made, NoMemory>
        requires kept { IsWellKept scene }
        requires sound { (kinds : List Bool)
            × IsSound (setting_of self.now.setting) kinds
            (moment_of scene (contents_in store.old)) }
        requires rests { AtRest (setting_of self.now.setting)
            (moment_of scene (contents_in store.old)) }
        ensures made { IfOk result (λ made.
            RestTurns (setting_of self.now.setting) self.now.globals reductions
            (moment_of scene (contents_in store.old)) picture.old picture.new
            (stands_at made.stand (contents_in store.new)) (contents_in store.new) made.turn) }
        ensures kept { IfOk result (λ made. StandIsKept made.stand) }
        ensures named { IfOk result (MadeIsOf store.new.variables) }
        ensures steps { IfOk result (λ made.
            (more : ℕ) × TriesBeyond made.turn more × (steps.new ≡ steps.old + more)) }
        ensures err { OnErr result (picture.new ≡ picture.old) }
    {
        let state = self.setting.state;
        match settled(&scene) {
            Settled::Ends => self.finish(scene, store, reductions, picture),
            Settled::Goes => self.go_on(scene, store, reductions, picture),
            Settled::Waiting(item) => {
                let cell = self.waits_for(&mut scene, store, item, steps)?;
                stop(Turn::Undetermined { state, cell }, scene)
            }
            // The root is region 0.
            Settled::EndOpen => {
                let cell = Cell::End {
                    region: 0,
                    depth: 0,
                };
                stop(Turn::Undetermined { state, cell }, scene)
            }
        }
    }

    // The next state, which begins with this scene and store.
    fn make<L: Ledger>(
        &self,
        mut scene: Scene,
        store: &mut Store,
        picture: &mut Picture,
        tally: &mut Tally,
        steps: &mut Steps<L>,
    ) -> Result<Made, NoMemory>
        requires within { self.now.setting.state ≤ self.now.limits.states }
        requires kept { IsWellKept scene }
        requires sound { (plan : Plan) × IsSettingsOf plan self.now
            × IsSound (setting_of self.now.setting) (kinds_of plan.program.globals)
            (moment_of scene (contents_in store.old)) }
        ensures made { IfOk result (λ made.
            (plan : Plan) → IsSettingsOf plan self.now
            → StateBecomes plan self.now.setting.state (moment_of scene (contents_in store.old))
            picture.old picture.new (stands_at made.stand (contents_in store.new))
            (contents_in store.new) made.turn) }
        ensures in_order { IfOk result (λ made.
            IsNamedInOrder (setting_of self.now.setting) self.now.order self.now.limits.reductions
            (moment_of scene (contents_in store.old)) made.turn) }
        ensures kept { IfOk result (λ made. StandIsKept made.stand) }
        ensures named { IfOk result (MadeIsOf store.new.variables) }
        ensures tried { IfOk result (λ made.
            (plan : Plan) → IsSettingsOf plan self.now
            → self.now.setting.state < self.now.limits.states
            → IsTallyOf plan self.now.order self.now.setting.state
            (moment_of scene (contents_in store.old)) picture.old picture.new
            (stands_at made.stand (contents_in store.new)) (contents_in store.new)
            made.turn tally.new) }
        ensures steps { IfOk result (λ made.
            self.now.setting.state < self.now.limits.states
            → CountsStateTries steps.old steps.new tally.new made.turn) }
        ensures stays { self.now.limits.states ≤ self.now.setting.state
            → (tally.new ≡ tally.old) × (steps.new ≡ steps.old) }
        ensures err { OnErr result (picture.new ≡ picture.old) }
    {
        let state = self.setting.state;
        if state == self.limits.states {
            return stop(Turn::StateLimit { states: state }, scene);
        }
        clear_tally(tally);
        // Each state begins with the run's order, so a seed's choices begin again.
        let strategy = Strategy {
            order: self.order,
            room: self.limits.reductions,
        };
        let ending = close_by_agenda(&mut scene, store, &self.setting, strategy, tally, steps)?;
        match ending {
            Ending::Rest => {
                let reductions = tally.picks.items.len() as u64;
                let made = self.make_at_rest(scene, store, reductions, picture, steps)?;
                Ok(made)
            }
            Ending::Clash(clash) => {
                let made = stop(Turn::Contradictory { state, clash }, scene)?;
                Ok(made)
            }
            Ending::Missing(port) => {
                let made = stop(Turn::InputMissing { state, port }, scene)?;
                Ok(made)
            }
            Ending::Over(limit) => {
                let made = stop(Turn::Over { state, limit }, scene)?;
                Ok(made)
            }
        }
    }
}

impl Run {
    /// A run of the program with these inputs, before its first state. Each state is closed in this order; the choices of a seed begin
    /// again with each.
    pub fn start(
        alloc: Global,
        program: Program,
        inputs: Inputs,
        limits: Limits,
        order: Order,
    ) -> Result<Run, NoMemory>
        requires fits { ProgramFits (program_tree program) }
        ensures stand { IfOk result (λ run.
            standing_of run
            ≡ open_at (first_moment program.globals (formula_tree program.main.value))) }
        ensures state { IfOk result (λ run. next_state_of run ≡ 0) }
        ensures order { IfOk result (λ run. order_of run ≡ order) }
        ensures store { IfOk result (λ run. store_of run ≡ new_store program.globals) }
        ensures plan { IfOk result
            (IsRunOf
            (plan_with (program_tree program) (inputs_of inputs) limits.states limits.reductions)) }
        ensures stands { IfOk result (λ run.
            StandsForItsProgram
            (plan_with (program_tree program) (inputs_of inputs) limits.states limits.reductions)
            (standing_of run)) }
        ensures tally { IfOk result (λ run. HasRecordedNothing (tally_of run)) }
    {
        let scene = start(alloc, &program.main)?;
        let store = Store::new(alloc, &program.globals)?;
        Ok(Run {
            alloc,
            program,
            inputs,
            limits,
            order,
            state: 0,
            store,
            stand: Stand::Open(scene),
            tally: no_tally(alloc),
        })
    }

    /// The program that is run.
    pub fn program(&self) -> &Program
        ensures { program_tree result.now ≡ program_of self.now }
    {
        &self.program
    }

    /// What is carried to the next state: the scene that it begins with, where the last answer was `Went`; else nothing.
    pub fn scene(&self) -> Option<&Scene>
        ensures scene { option_map (λ s. scene_of s.now) result
            ≡ carried_scene (next_state_of self.now) (standing_of self.now) }
        ensures kept { StandIsKept self.now.stand → IfSome result (λ s. IsWellKept s.now) }
    {
        if self.state == 0 {
            return None;
        }
        match &self.stand {
            Stand::Open(scene) => Some(scene),
            Stand::Answered(_, _) => None,
            Stand::Spent => None,
        }
    }

    /// The scene in which the run ended: what the picks of its last state led to, or, at the limit of states, what the next one would begin
    /// with. None before its end.
    pub fn last_scene(&self) -> Option<&Scene>
        ensures scene { option_map (λ s. scene_of s.now) result
            ≡ last_scene_in (standing_of self.now) }
        ensures moment { (turn : Turn) (m : Moment) → standing_of self.now ≡ answered turn m
            → IsSomeAnd result (λ s. moment_of s.now (store_of self.now) ≡ m) }
        ensures kept { StandIsKept self.now.stand → IfSome result (λ s. IsWellKept s.now) }
    {
        match &self.stand {
            Stand::Open(_) => None,
            Stand::Answered(_, scene) => Some(scene),
            Stand::Spent => None,
        }
    }

    /// What is known now: before a state, what it begins with; after the run's end, what was known when it came to it.
    pub fn store(&self) -> &Store
        ensures store { contents_in result.now ≡ store_of self.now }
        ensures before { (m : Moment) → standing_of self.now ≡ open_at m
            → contents_in result.now ≡ m.store }
    {
        &self.store
    }

    // The number of the state that comes after this answer.
    fn next_number(&self, turn: &Turn) -> u64
        requires { turn.now ≡ Turn.Went
            → self.now.state < self.now.limits.states }
        ensures { result ≡ state_after self.now.state turn.now }
    {
        let state = self.state;
        let most = self.limits.states;
        match turn {
            Turn::Went => most.min(state + 1),
            Turn::Finished { .. } | Turn::Contradictory { .. } | Turn::Undetermined { .. } => state,
            Turn::StateLimit { .. } | Turn::InputMissing { .. } | Turn::Over { .. } => state,
        }
    }

    /// Makes the next state, or gives the last answer again. On `Went` and `Finished` the picture is that of the state; else it stays. The
    /// store keeps what the state's reductions brought, and on `Went` goes on to the next state; its variables stay, and more may follow
    /// them; a cell or a clash is one of these. After want of memory the run answers nothing else. Each item that is tried adds one to the
    /// steps. Where a state is begun, the tally is emptied and records its tries.
    pub fn state<L: Ledger>(
        &mut self,
        picture: &mut Picture,
        steps: &mut Steps<L>,
    ) -> Result<Turn, NoMemory>
        requires run { (plan : Plan) × IsRunOf plan self.old }
        ensures made { IfOk result (λ turn.
            (plan : Plan) → IsRunOf plan self.old
            → AnswersState plan (standing_place self.old) picture.old picture.new
            (standing_place self.new) turn) }
        ensures means { IfOk result (λ turn.
            (plan : Plan) → IsRunOf plan self.old
            → AnswerMeans plan (next_state_of self.old) (standing_of self.old)
            (standing_of self.new) picture.new turn) }
        ensures agrees { IfOk result (λ turn.
            (plan : Plan) → IsRunOf plan self.old
            → AnswerAgrees plan (next_state_of self.old) (standing_of self.old) picture.new turn) }
        ensures no_dead_end { IfOk result (λ turn.
            (plan : Plan) → IsRunOf plan self.old
            → AnswerHasNoDeadEnd plan (next_state_of self.old) (standing_of self.old) picture.new
            turn) }
        ensures run { (plan : Plan) → IsRunOf plan self.old → IsRunOf plan self.new }
        ensures order { order_of self.new ≡ order_of self.old }
        ensures in_order { IfOk result (λ turn.
            (plan : Plan) (m : Moment) → IsRunOf plan self.old → standing_of self.old ≡ open_at m
            → IsNamedInOrder (setting plan (next_state_of self.old)) (order_of self.old)
            plan.reductions m turn) }
        ensures variables { OnOk result
            (HasFirst (store_of self.old).variables (store_of self.new).variables) }
        ensures named { IfOk result (TurnIsOf (store_of self.new).variables) }
        ensures tried { IfOk result (λ turn.
            (plan : Plan) (m : Moment) → IsRunOf plan self.old → standing_of self.old ≡ open_at m
            → next_state_of self.old < plan.states
            → IsTallyOf plan (order_of self.old) (next_state_of self.old) m picture.old picture.new
            (standing_of self.new) (store_of self.new) turn (tally_of self.new)) }
        ensures steps { IfOk result (λ turn.
            (plan : Plan) (m : Moment) → IsRunOf plan self.old → standing_of self.old ≡ open_at m
            → next_state_of self.old < plan.states
            → CountsStateTries steps.old steps.new (tally_of self.new) turn) }
        ensures stays { IfOk result (λ turn.
            (plan : Plan) → IsRunOf plan self.old
            → BeginsNoState plan (next_state_of self.old) (standing_of self.old)
            → tally_of self.new ≡ tally_of self.old) }
        ensures tries_none { IfOk result (λ turn.
            (plan : Plan) → IsRunOf plan self.old
            → BeginsNoState plan (next_state_of self.old) (standing_of self.old)
            → steps.new ≡ steps.old) }
        ensures err { OnErr result ((standing_of self.new ≡ spent) × (picture.new ≡ picture.old)) }
    {
        match mem::replace(&mut self.stand, Stand::Spent) {
            Stand::Open(scene) => {
                let globals = self.program.globals.len();
                let settings = Settings {
                    globals,
                    limits: self.limits,
                    order: self.order,
                    setting: Setting {
                        alloc: self.alloc,
                        defs: &self.program.defs,
                        inputs: &self.inputs,
                        state: self.state,
                    },
                };
                let made = settings.make(scene, &mut self.store, picture, &mut self.tally, steps)?;
                self.state = self.next_number(&made.turn);
                self.stand = made.stand;
                Ok(made.turn)
            }
            Stand::Answered(turn, scene) => {
                let made = stop(turn, scene)?;
                self.stand = made.stand;
                Ok(made.turn)
            }
            Stand::Spent => Err(NoMemory),
        }
    }
}
