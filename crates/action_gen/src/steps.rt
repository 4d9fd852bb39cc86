// DO FOR from a start to an end: what is done before the first turn, and the test before each other turn.
#![tactic(auto, using(expr_gen::proofs::Appending::keeping))]

ghost use Rattle.std.specs.Prelude.{◌≡◌, Some, pos, option_map, length, IfOk, OnOk, if◌then◌else◌};
ghost use Rattle.program_trees.specs.ExprTree.{constant, expr_tree};
ghost use Rattle.scalar_operators.specs.Numbers.{greatest_int, least_int};
ghost use Rattle.code_scheme.specs.Pieces.{capped};
ghost use Rattle.code_scheme.specs.StatementLoops.{steps_kept, constant_step, step_in, where_step, step_of_value, within_size, order_code, before_code, rest_code, nearest_code, nearer_code, moved_end_code, by_step, is_one, forth, back};
ghost use Rattle.action_gen.specs.Counting.{step_of, steps_of};
ghost use Rattle.expr_gen.specs.Putting.{Keeps};
ghost use Rattle.expr_gen.specs.Puts.{PutsAll, PutsSome};
ghost use Rattle.action_gen.specs.Puts.{IsSteps, PutsFirstTest, PutsFirstValue, PutsLimit, PutsNearEnd, PutsNext, PutsOwnStep, PutsRangeOf, PutsWithin, own_step_size, range_size, some_expr, start_of_turns};

use crate::around::Around;
use checked_program::{Expr, Operation};
use code_types::Instr;
use expr_gen::{
    Branch, Draft, INT, PartRefusal, bounds_of_value, bounds_to_test, check_size, expr_size,
    put_branch, put_check, put_expr, uncapped,
};
use modes::Bounds;

/// The values of a step.
const STEPS: Bounds = Bounds {
    low: 1,
    high: 2147483647,
};

/// The step of a DO FOR: a constant from 1 on, or what a scratch local keeps.
#[derive(Clone, Copy)]
pub enum Step {
    Constant(u32),
    Kept(u32),
}

/// What a DO FOR counts by: the local of its counter, the scratch locals of its start and its end, and the step.
#[derive(Clone, Copy)]
pub struct Steps {
    counter: u32,
    start: u32,
    step: Step,
    end: u32,
    down: bool,
}

impl Steps {
    /// The steps of a counter, kept in scratch locals from the first free one on.
    pub fn new(
        counter: u32,
        step: &Option<Box<Expr>>,
        down: bool,
        free: u32,
    ) -> Result<Steps, PartRefusal>
        ensures { IfOk result (λ steps. IsSteps steps counter step.now down free) }
    {
        let next = uncapped(free.saturating_add(1))?;
        match constant_step(step) {
            Some(step) => Ok(Steps {
                counter,
                start: free,
                step: Step::Constant(step),
                end: next,
                down,
            }),
            None => Ok(Steps {
                counter,
                start: free,
                step: Step::Kept(next),
                end: uncapped(free.saturating_add(2))?,
                down,
            }),
        }
    }
}

// The step where it is a constant from 1 on, or 1 where none is written.
fn constant_step(step: &Option<Box<Expr>>) -> Option<u32>
    ensures { option_map pos result ≡ constant_step (some_expr step.now) }
{
    match step {
        Some(step) => step_of_value(step),
        None => Some(1),
    }
}

// The number of a constant, where it is one from 1 on.
#[tactic(auto, using(expr_gen::proofs::Views::tree_built))]
fn step_of_value(step: &Expr) -> Option<u32>
    ensures { option_map pos result ≡ step_of_value (expr_tree step.now) }
{
    match &step.operation {
        Operation::Constant(scalars) => step_of_constant(scalars.as_slice()),
        Operation::This | Operation::Contents(_) | Operation::PartOf { .. } => None,
        Operation::Receive { .. } | Operation::Start(_) | Operation::Call(_) => None,
        Operation::Powerset { .. } | Operation::Parts(_) | Operation::Uniform { .. } => None,
        Operation::Routine { .. } | Operation::GetInt => None,
        Operation::Prefixed { .. } | Operation::Binary { .. } => None,
    }
}

fn step_of_constant(scalars: &[i64]) -> Option<u32>
    ensures { option_map pos result ≡ step_in (constant scalars.now) }
{
    match scalars {
        [number] => step_of_number(*number),
        _ => None,
    }
}

fn step_of_number(number: i64) -> Option<u32>
    ensures { option_map pos result ≡ where_step number }
{
    match u32::try_from(number) {
        Ok(number) => where_step(number),
        Err(_) => None,
    }
}

// The number, where it is a step.
fn where_step(number: u32) -> Option<u32>
    ensures { option_map pos result ≡ where_step (pos number) }
{
    if 1 <= number && number <= 2147483647 {
        Some(number)
    } else {
        None
    }
}

/// How many scratch locals a DO FOR with such a step keeps: start and end, and the step where it is no constant.
pub fn steps_kept(step: &Option<Box<Expr>>) -> u32
    ensures { result ≡ steps_kept (some_expr step.now) }
{
    match constant_step(step) {
        Some(_) => 2,
        None => 3,
    }
}

/// Start, step and end of DO FOR, each evaluated once. They are kept in scratch locals, but for a constant step.
pub fn put_bounds(
    start: &Expr,
    step: &Option<Box<Expr>>,
    end: &Expr,
    around: &Around,
    draft: &mut Draft,
) -> Result<(), PartRefusal>
    ensures puts { OnOk result (PutsRangeOf around.now start.now step.now end.now draft.old draft.new) }
    ensures keeps { Keeps draft.old.code draft.new.code }
{
    put_within(start, INT, around, draft)?;
    put_own_step(step, around, draft)?;
    put_within(end, INT, around, draft)?;
    draft.put(Instr::SetLocal(around.free, steps_kept(step)))
}

// A step that is no constant.
fn put_own_step(
    step: &Option<Box<Expr>>,
    around: &Around,
    draft: &mut Draft,
) -> Result<(), PartRefusal>
    ensures puts { OnOk result (PutsOwnStep around.now step.now draft.old draft.new) }
    ensures keeps { Keeps draft.old.code draft.new.code }
{
    match constant_step(step) {
        Some(_) => Ok(()),
        None => match step {
            Some(step) => put_within(step, STEPS, around, draft),
            None => Ok(()),
        },
    }
}

/// How many instructions that has.
pub fn bounds_size(start: &Expr, step: &Option<Box<Expr>>, end: &Expr) -> u32
    ensures { result ≡ capped (range_size start.now step.now end.now) }
{
    within_size(start, INT)
        .saturating_add(own_step_size(step))
        .saturating_add(within_size(end, INT))
        .saturating_add(1)
}

fn own_step_size(step: &Option<Box<Expr>>) -> u32
    ensures { result ≡ capped (own_step_size step.now) }
{
    match constant_step(step) {
        Some(_) => 0,
        None => match step {
            Some(step) => within_size(step, STEPS),
            None => 0,
        },
    }
}

// A value in these bounds, or RANGEFAIL.
fn put_within(
    value: &Expr,
    bounds: Bounds,
    around: &Around,
    draft: &mut Draft,
) -> Result<(), PartRefusal>
    ensures puts { OnOk result (PutsWithin around.now bounds value.now draft.old draft.new) }
    ensures keeps { Keeps draft.old.code draft.new.code }
{
    put_expr(value, &around.site, around.free, draft)?;
    put_check(bounds_to_test(Some(bounds), bounds_of_value(value)), draft)
}

fn within_size(value: &Expr, bounds: Bounds) -> u32
    ensures { result ≡ capped (within_size (Some bounds) (expr_tree value.now)) }
{
    let tested = bounds_to_test(Some(bounds), bounds_of_value(value));
    expr_size(value).saturating_add(check_size(tested))
}

/// What DO FOR does before the first turn: the first test, the limit, and the first value.
pub fn put_first_value(steps: Steps, behind: u32, draft: &mut Draft) -> Result<(), PartRefusal>
    ensures puts { OnOk result (PutsFirstValue steps behind draft.old draft.new) }
    ensures keeps { Keeps draft.old.code draft.new.code }
{
    put_first_test(steps, behind, draft)?;
    put_limit(steps, draft)?;
    draft.put(Instr::Local(steps.start, 1))?;
    draft.put(Instr::SetLocal(steps.counter, 1))?;
    let turn = draft.target_behind(9)?;
    draft.put(Instr::Jump(turn))
}

/// How many instructions that has.
pub fn first_value_size(step: &Option<Box<Expr>>) -> u32
    ensures { result ≡ start_of_turns step.now }
{
    match constant_step(step) {
        Some(step) => { if step == 1 { 8 } else { 22 } }
        None => 28,
    }
}

// Past the loop where the start is past the end.
fn put_first_test(steps: Steps, behind: u32, draft: &mut Draft) -> Result<(), PartRefusal>
    ensures puts { OnOk result (PutsFirstTest steps behind draft.old draft.new) }
    ensures keeps { Keeps draft.old.code draft.new.code }
{
    let branch = Branch {
        when: true,
        target: behind,
    };
    put_before(steps.down, steps.end, steps.start, draft)?;
    put_branch(branch, draft)
}

// Whether what one local has comes before what another one has, or behind it with DOWN.
fn put_before(down: bool, first: u32, second: u32, draft: &mut Draft) -> Result<(), PartRefusal>
    ensures puts { OnOk result (PutsSome (before_code down first second) 3 draft.old draft.new) }
    ensures keeps { Keeps draft.old.code draft.new.code }
{
    if down {
        put_order(second, first, draft)
    } else {
        put_order(first, second, draft)
    }
}

// Whether what one local has comes before what another one has.
fn put_order(first: u32, second: u32, draft: &mut Draft) -> Result<(), PartRefusal>
    ensures puts { OnOk result (PutsSome (order_code first second) 3 draft.old draft.new) }
    ensures keeps { Keeps draft.old.code draft.new.code }
{
    draft.put(Instr::Local(first, 1))?;
    draft.put(Instr::Local(second, 1))?;
    draft.put(Instr::Less(1))
}

/// The next value, where it doesn't pass the end: where the counter lies before the limit.
pub fn put_next(steps: Steps, behind: u32, draft: &mut Draft) -> Result<(), PartRefusal>
    ensures puts { OnOk result (PutsNext steps behind draft.old draft.new) }
    ensures keeps { Keeps draft.old.code draft.new.code }
{
    put_before(steps.down, steps.counter, steps.end, draft)?;
    draft.put(Instr::Unless(behind))?;
    draft.put(Instr::Local(steps.counter, 1))?;
    draft.put(by_step(steps.step))?;
    draft.put(forth(steps.down))?;
    draft.put(Instr::SetLocal(steps.counter, 1))
}

// The step.
fn by_step(step: Step) -> Instr
    ensures { result ≡ by_step (step_of step) }
{
    match step {
        Step::Constant(step) => Instr::Push(i64::from(step)),
        Step::Kept(local) => Instr::Local(local, 1),
    }
}

// Away from the start.
fn forth(down: bool) -> Instr
    ensures { result ≡ forth down }
{
    if down { Instr::Sub } else { Instr::Add }
}

// Back towards the start.
fn back(down: bool) -> Instr
    ensures { result ≡ back down }
{
    if down { Instr::Add } else { Instr::Sub }
}

// The end becomes the limit, from which on another step passes the end. With a step of 1 that is the end itself.
fn put_limit(steps: Steps, draft: &mut Draft) -> Result<(), PartRefusal>
    ensures puts { OnOk result (PutsLimit steps draft.old draft.new) }
    ensures keeps { Keeps draft.old.code draft.new.code }
{
    if is_one(steps.step) {
        return Ok(());
    }
    put_near_end(steps, draft)?;
    put_moved_end(steps, draft)
}

// Whether the step is known to be 1.
fn is_one(step: Step) -> bool
    ensures { result ≡ is_one (step_of step) }
{
    match step {
        Step::Constant(step) => step == 1,
        Step::Kept(_) => false,
    }
}

// Where the limit wouldn't lie in INT, the end is moved so far that it does.
fn put_near_end(steps: Steps, draft: &mut Draft) -> Result<(), PartRefusal>
    ensures puts { OnOk result (PutsNearEnd steps draft.old draft.new) }
    ensures keeps { Keeps draft.old.code draft.new.code }
{
    put_nearer(steps, draft)?;
    draft.put(Instr::Less(1))?;
    let behind = draft.target_behind(rest_size(steps.step).saturating_add(4))?;
    draft.put(Instr::Unless(behind))?;
    put_nearest(steps, draft)?;
    draft.put(Instr::SetLocal(steps.end, 1))
}

// The end and the nearest one, the one lowest that comes first where no step leaves INT.
fn put_nearer(steps: Steps, draft: &mut Draft) -> Result<(), PartRefusal>
    ensures puts { OnOk result (PutsAll (nearer_code (steps_of steps)) draft.old draft.new) }
    ensures keeps { Keeps draft.old.code draft.new.code }
{
    if steps.down {
        put_nearest(steps, draft)?;
        draft.put(Instr::Local(steps.end, 1))
    } else {
        draft.put(Instr::Local(steps.end, 1))?;
        put_nearest(steps, draft)
    }
}

// The end whose limit is the first value of INT, or the last one behind DOWN.
fn put_nearest(steps: Steps, draft: &mut Draft) -> Result<(), PartRefusal>
    ensures puts { OnOk result (PutsAll (nearest_code (steps_of steps)) draft.old draft.new) }
    ensures keeps { Keeps draft.old.code draft.new.code }
{
    draft.put(Instr::Push(first_counted(steps.down)))?;
    put_rest(steps.step, draft)?;
    draft.put(forth(steps.down))
}

// The first value of INT as one counts: the least, or the greatest with DOWN.
fn first_counted(down: bool) -> i64
    ensures { result ≡ (if down then greatest_int else least_int) }
{
    if down { INT.high } else { INT.low }
}

// The end is moved towards the start by 1 less than the step.
fn put_moved_end(steps: Steps, draft: &mut Draft) -> Result<(), PartRefusal>
    ensures puts { OnOk result (PutsAll (moved_end_code (steps_of steps)) draft.old draft.new) }
    ensures keeps { Keeps draft.old.code draft.new.code }
{
    draft.put(Instr::Local(steps.end, 1))?;
    put_rest(steps.step, draft)?;
    draft.put(back(steps.down))?;
    draft.put(Instr::SetLocal(steps.end, 1))
}

// 1 less than the step.
fn put_rest(step: Step, draft: &mut Draft) -> Result<(), PartRefusal>
    ensures puts { OnOk result (PutsAll (rest_code (step_of step)) draft.old draft.new) }
    ensures keeps { Keeps draft.old.code draft.new.code }
{
    match step {
        Step::Constant(step) => draft.put(Instr::Push(i64::from(step) - 1)),
        Step::Kept(local) => {
            draft.put(Instr::Local(local, 1))?;
            draft.put(Instr::Push(1))?;
            draft.put(Instr::Sub)
        }
    }
}

fn rest_size(step: Step) -> u32
    ensures { result ≡ length (rest_code (step_of step)) }
{
    match step {
        Step::Constant(_) => 1,
        Step::Kept(_) => 3,
    }
}
