// The runner: follows jumps and calls between the objects of one file (the Rust's mobj_runner.rs).
#![tactic(auto)]

ghost use Rattle.std.specs.Prelude.{◌≡◌, ◌≤◌, ◌<◌, length};
ghost use Rattle.error.specs.Rules.{given};
ghost use Rattle.registers.specs.Lent.{held, Same};
ghost use Rattle.movie_object.specs.Rules.{count_of};
ghost use Rattle.vm.specs.Rules.{banks};
ghost use Rattle.mobj_runner.specs.Rules.{follows, asked, framed, world, returned, jumped, called, acted, turn_of, drive_of, begun, waits, verdict_for, answer_of};

use error::Refusal;
use movie_object::ObjectTable;
use registers::Banks;
use session::{Budgets, ObjectFrame, Session};
use vm::{End, NavRequest};

// Why a run or a resume of the runner returned.
#[derive(Clone, Copy)]
pub enum RunOutcome {
    Finished,
    Request(NavRequest),
    BadObject(u32),
    BudgetExhausted,
    ObjectStackFull,
}

// What the end of an object's commands asks for.
#[derive(Clone, Copy)]
pub enum Follow {
    Return,
    Jump(u32),
    Call(u32),
    Ask(NavRequest),
}

// How a turn ends: with a session to go on from, or with an outcome. The session stands at the same place in both, which no ControlFlow has.
#[derive(Clone, Copy)]
pub enum Turn {
    Go(Session),
    Stop(Session, RunOutcome),
}

#[derive(Clone, Copy)]
pub struct RunEnd {
    pub outcome: RunOutcome,
    pub session: Session,
}

// Where a call of the runner begins: in an object, or where the session stands.
#[derive(Clone, Copy)]
pub enum Start {
    Object(u32),
    Here,
}

// The requests that the runner follows itself, and those that it hands on.
fn asked_by(request: NavRequest) -> Follow
    ensures { result ≡ asked request }
{
    match request {
        NavRequest::JumpObject(object) => Follow::Jump(object),
        NavRequest::CallObject(object) => Follow::Call(object),
        NavRequest::Resume => Follow::Return,
        _ => Follow::Ask(request),
    }
}

// An object that runs out of steps ends like any other.
fn what_follows(end: End) -> Follow
    ensures { result ≡ follows end }
{
    match end {
        End::Halted | End::Spent => Follow::Return,
        End::Branch(request) => asked_by(request),
    }
}

// Pops an object frame, or finishes.
#[tactic(auto, unfolding(crate::specs::Rules::returned))]
fn leave_object(frames: &[u32], s: Session, left: u32) -> Turn
    ensures { result ≡ returned frames.now s left }
{
    if s.odepth == 0 {
        return Turn::Stop(s, RunOutcome::Finished);
    }
    let odepth = s.odepth - 1;
    if left == 0 {
        return Turn::Stop(Session { odepth, ..s }, RunOutcome::BudgetExhausted);
    }
    let ObjectFrame { object, pc } = ObjectFrame::read(frames, odepth);
    Turn::Go(Session {
        object,
        pc,
        odepth,
        ..s
    })
}

#[tactic(auto, unfolding(crate::specs::Rules::jumped))]
fn jump(count: u32, s: Session, object: u32, left: u32) -> Turn
    ensures { result ≡ jumped count s object left }
{
    if left == 0 {
        Turn::Stop(s, RunOutcome::BudgetExhausted)
    } else if count <= object {
        Turn::Stop(s, RunOutcome::BadObject(object))
    } else {
        Turn::Go(Session { object, pc: 0, ..s })
    }
}

#[tactic(auto, unfolding(crate::specs::Rules::called))]
fn call(frames: &mut [u32], count: u32, s: Session, object: u32, left: u32) -> Turn
    requires { length frames.old ≤ 131073 }
    ensures { framed result frames.new ≡ called frames.old count s object left }
{
    if left == 0 {
        return Turn::Stop(s, RunOutcome::BudgetExhausted);
    }
    if count <= object {
        return Turn::Stop(s, RunOutcome::BadObject(object));
    }
    if frames.len() / 2 <= s.odepth as usize {
        return Turn::Stop(s, RunOutcome::ObjectStackFull);
    }
    let frame = ObjectFrame {
        object: s.object,
        pc: s.pc,
    };
    frame.write(frames, s.odepth);
    Turn::Go(Session {
        object,
        pc: 0,
        odepth: s.odepth + 1,
        ..s
    })
}

fn act(frames: &mut [u32], count: u32, s: Session, next: Follow, left: u32) -> Turn
    requires { length frames.old ≤ 131073 }
    ensures { framed result frames.new ≡ acted frames.old count s left next }
{
    match next {
        Follow::Return => leave_object(frames, s, left),
        Follow::Jump(object) => jump(count, s, object, left),
        Follow::Call(object) => call(frames, count, s, object, left),
        Follow::Ask(request) => Turn::Stop(s, RunOutcome::Request(request)),
    }
}

// One turn: the current object's commands, and what follows their end.
fn one_turn(
    banks: &mut Banks,
    frames: &mut [u32],
    objects: &ObjectTable,
    s: Session,
    steps: u32,
    left: u32,
) -> Turn
    requires { length frames.old ≤ 131073 }
    ensures same { Same banks.old banks.new }
    ensures drove { world result (held banks.new) frames.new
        ≡ turn_of objects.now steps left (world s (held banks.old) frames.old) }
{
    let commands = objects.commands(s.object);
    let ran = vm::run_commands(banks, commands, s.pc as usize, steps);
    let here = Session {
        pc: ran.pc as u32,
        ..s
    };
    act(frames, objects.count(), here, what_follows(ran.end), left)
}

// Turn after turn, until one stops. Each turn that goes on is charged. No `for`: that one stops in time is what a turn says.
#[tactic(auto, using(crate::specs::Laws::turn_charged, crate::specs::Laws::drive_stop, crate::specs::Laws::drive_go))]
pub fn drive(
    banks: &mut Banks,
    frames: &mut [u32],
    objects: &ObjectTable,
    s: Session,
    steps: u32,
    transitions: u32,
) -> RunEnd
    requires { length frames.old ≤ 131073 }
    ensures same { Same banks.old banks.new }
    ensures drove { world result (held banks.new) frames.new
        ≡ drive_of objects.now steps transitions (world s (held banks.old) frames.old) }
{
    let mut at = s;
    let mut left = transitions;
    loop {
        match one_turn(banks, frames, objects, at, steps, left) {
            Turn::Go(next) => {
                at = next;
                left -= 1;
            }
            Turn::Stop(session, outcome) => {
                return RunEnd { outcome, session };
            }
        }
    }
}

#[tactic(auto, unfolding(crate::specs::Rules::start_of))]
fn begin(
    banks: &mut Banks,
    frames: &mut [u32],
    objects: &ObjectTable,
    s: Session,
    start: Start,
    b: Budgets,
) -> RunEnd
    requires { length frames.old ≤ 131073 }
    ensures same { Same banks.old banks.new }
    ensures drove { world result (held banks.new) frames.new
        ≡ begun objects.now b (world s (held banks.old) frames.old) start }
{
    let here = match start {
        Start::Object(object) if objects.count() <= object => {
            return RunEnd {
                outcome: RunOutcome::BadObject(object),
                session: s,
            };
        }
        Start::Object(object) => Session {
            object,
            pc: 0,
            odepth: 0,
            ..s
        },
        Start::Here => s,
    };
    drive(banks, frames, objects, here, b.steps, b.objects)
}

fn waits_for(s: Session, start: Start) -> bool
    ensures { result ≡ waits s start }
{
    match start {
        Start::Object(_) => s.pending,
        Start::Here => true,
    }
}

// Tests what was handed in, in the order of the refusals, and reads the file, whose walk fills the table of places.
#[tactic(auto, unfolding(crate::specs::Rules::verdict_for))]
fn opened<'a, 'p>(
    gpr: &[u32],
    psr: &[u32],
    frames: &[u32],
    titles: &[u32],
    file: &'a [u8],
    places: &'p mut [u32],
    s: Session,
    pending: bool,
    b: Budgets,
) -> Result<ObjectTable<'a, 'p>, Refusal>
    requires { count_of file.now ≤ length places.old }
    ensures { result ≡ given (verdict_for file.now b titles.now pending (world s (banks gpr.now psr.now) frames.now)) file.now }
{
    session::buffers_verdict(gpr, psr, frames, titles)?;
    b.verdict()?;
    let objects = ObjectTable::read(file, places)?;
    session::session_verdict(frames, titles, objects.count(), s, pending)?;
    Ok(objects)
}

#[tactic(auto, using(crate::specs::Laws::opened_room), unfolding(crate::specs::Rules::answer_of))]
fn answer(
    gpr: &mut [u32],
    psr: &mut [u32],
    frames: &mut [u32],
    titles: &[u32],
    file: &[u8],
    places: &mut [u32],
    s: Session,
    start: Start,
    b: Budgets,
) -> Result<RunEnd, Refusal>
    requires { count_of file.now ≤ length places.old }
    ensures { world result (banks gpr.new psr.new) frames.new
        ≡ answer_of file.now b titles.now start (world s (banks gpr.old psr.old) frames.old) }
{
    let pending = waits_for(s, start);
    let objects = opened(gpr, psr, frames, titles, file, places, s, pending, b)?;
    let mut banks = Banks { gpr, psr };
    Ok(begin(&mut banks, frames, &objects, s, start, b))
}

// Most discs have few objects: a small table of places serves them. It must stand in this frame, so each drive chooses its own.
#[tactic(auto, using(crate::specs::Laws::count_small))]
fn answer_with_table(
    gpr: &mut [u32],
    psr: &mut [u32],
    frames: &mut [u32],
    titles: &[u32],
    file: &[u8],
    s: Session,
    start: Start,
    b: Budgets,
) -> Result<RunEnd, Refusal>
    ensures { world result (banks gpr.new psr.new) frames.new
        ≡ answer_of file.now b titles.now start (world s (banks gpr.old psr.old) frames.old) }
{
    if movie_object::object_count(file) <= 1024 {
        let mut few = [0; 1024];
        answer(gpr, psr, frames, titles, file, &mut few, s, start, b)
    } else {
        let mut many = [0; 65536];
        answer(gpr, psr, frames, titles, file, &mut many, s, start, b)
    }
}

// Starts an object and drives until the objects finish or something is asked of the player.
pub fn run(
    gpr: &mut [u32],
    psr: &mut [u32],
    frames: &mut [u32],
    titles: &[u32],
    file: &[u8],
    s: Session,
    object: u32,
    b: Budgets,
) -> Result<RunEnd, Refusal>
    ensures { world result (banks gpr.new psr.new) frames.new
        ≡ answer_of file.now b titles.now (Start.Object object)
        (world s (banks gpr.old psr.old) frames.old) }
{
    answer_with_table(gpr, psr, frames, titles, file, s, Start::Object(object), b)
}

// Goes on from where the session stands.
pub fn resume(
    gpr: &mut [u32],
    psr: &mut [u32],
    frames: &mut [u32],
    titles: &[u32],
    file: &[u8],
    s: Session,
    b: Budgets,
) -> Result<RunEnd, Refusal>
    ensures { world result (banks gpr.new psr.new) frames.new
        ≡ answer_of file.now b titles.now Start.Here
        (world s (banks gpr.old psr.old) frames.old) }
{
    answer_with_table(gpr, psr, frames, titles, file, s, Start::Here, b)
}
