// The numbers of answers and of sessions, as the C interface hands them out; the Rust has its enums alone.
#![tactic(auto)]

ghost use Rattle.std.specs.Prelude.{◌≡◌, length};
ghost use Rattle.nav_command.specs.Rules.{number_of};
ghost use Rattle.nav_numbers.specs.Rules.{unknown_of};
ghost use Rattle.numbers.specs.Rules.{request, request_of, step_numbers, bad, requesting, option_of, playing, drive_numbers, run_numbers, check_numbers, session_numbers, session_of, budget_numbers, budgets_of};
ghost use Rattle.numbers.specs.Apart.{ToldApart};

use common::number_at;
use disc_check::DiscCheck;
use error::Refusal;
use mobj_runner::RunOutcome;
use nav_command::Operation;
use nav_driver::{DriveOutcome, PlayRequest};
use nav_numbers::{Pair, flag_number, operation_number, pair_of, unknown_of};
use session::{Budgets, Session};
use vm::{NavRequest, Step};

// A request: its operation's place on the sheet, two operands, and the code of an unknown system request. Numbers, since C is handed them.
#[derive(Clone, Copy)]
pub struct Request {
    pub op: u32,
    pub first: u32,
    pub second: u32,
    pub code: u32,
}

// Requests.

fn asking(number: u32, a: u32, b: u32) -> Request
    ensures { result ≡ request number a b 0 }
{
    Request {
        op: number,
        first: a,
        second: b,
        code: 0,
    }
}

fn system_request(operation: Operation, a: u32, b: u32) -> Request
    ensures { result ≡ request (number_of operation) a b (unknown_of operation).value }
{
    Request {
        op: operation_number(operation),
        first: a,
        second: b,
        code: unknown_of(operation).value,
    }
}

pub fn request_of(asked: NavRequest) -> Request
    ensures { result ≡ request_of asked }
{
    match asked {
        NavRequest::JumpObject(object) => asking(4, object, 0),
        NavRequest::JumpTitle(title) => asking(5, title, 0),
        NavRequest::CallObject(object) => asking(6, object, 0),
        NavRequest::CallTitle(title) => asking(7, title, 0),
        NavRequest::Resume => asking(8, 0, 0),
        NavRequest::PlayPlayList(playlist) => asking(9, playlist, 0),
        NavRequest::PlayPlayListAtPlayItem(playlist, item) => asking(10, playlist, item),
        NavRequest::PlayPlayListAtMark(playlist, mark) => asking(11, playlist, mark),
        NavRequest::TerminatePlayList => asking(12, 0, 0),
        NavRequest::LinkPlayItem(item) => asking(13, item, 0),
        NavRequest::LinkMark(mark) => asking(14, mark, 0),
        NavRequest::SetSystem {
            op,
            operand1,
            operand2,
        } => { system_request(op, operand1, operand2) }
    }
}

// Answers.

// What one command, or a run of commands, answers.
pub fn step_numbers(step: Step) -> [u32; 5]
    ensures { result ≡ step_numbers step }
{
    match step {
        Step::Continue => [0, 0, 0, 0, 0],
        Step::Skipped => [1, 0, 0, 0, 0],
        Step::Halted => [2, 0, 0, 0, 0],
        Step::Branch(asked) => {
            let q = request_of(asked);
            [3, q.op, q.first, q.second, q.code]
        }
    }
}

// An outcome with one number at most.
fn bad_numbers(number: u32, what: u32) -> [u32; 6]
    ensures { result ≡ bad number what }
{
    [number, what, 0, 0, 0, 0]
}

fn request_numbers(asked: NavRequest) -> [u32; 6]
    ensures { result ≡ requesting (request_of asked) }
{
    let q = request_of(asked);
    [2, q.op, q.first, q.second, q.code, 0]
}

fn option_pair(option: Option<u32>) -> Pair
    ensures { result ≡ option_of option }
{
    match option {
        None => pair_of(0, 0),
        Some(number) => pair_of(1, number),
    }
}

fn play_numbers(p: PlayRequest) -> [u32; 6]
    ensures { result ≡ playing p.playlist (option_of p.play_item) (option_of p.mark) }
{
    let item = option_pair(p.play_item);
    let mark = option_pair(p.mark);
    [1, p.playlist, item.kind, item.value, mark.kind, mark.value]
}

// The driver's outcome.
pub fn drive_numbers(outcome: DriveOutcome) -> [u32; 6]
    ensures { result ≡ drive_numbers outcome }
{
    match outcome {
        DriveOutcome::Finished => bad_numbers(0, 0),
        DriveOutcome::Play(p) => play_numbers(p),
        DriveOutcome::Request(asked) => request_numbers(asked),
        DriveOutcome::BadTitle(title) => bad_numbers(3, title),
        DriveOutcome::BadObject(object) => bad_numbers(4, object),
        DriveOutcome::BudgetExhausted => bad_numbers(5, 0),
        DriveOutcome::ObjectStackFull => bad_numbers(6, 0),
        DriveOutcome::TitleStackFull => bad_numbers(7, 0),
    }
}

// The runner's outcome, in the same numbering.
pub fn run_numbers(outcome: RunOutcome) -> [u32; 6]
    ensures { result ≡ run_numbers outcome }
{
    match outcome {
        RunOutcome::Finished => bad_numbers(0, 0),
        RunOutcome::Request(asked) => request_numbers(asked),
        RunOutcome::BadObject(object) => bad_numbers(4, object),
        RunOutcome::BudgetExhausted => bad_numbers(5, 0),
        RunOutcome::ObjectStackFull => bad_numbers(6, 0),
    }
}

pub fn check_numbers(found: Result<DiscCheck, Refusal>) -> [u32; 3]
    ensures { result ≡ check_numbers found }
{
    match found {
        Ok(DiscCheck::Passed) => [0, 0, 0],
        Ok(DiscCheck::Offends { object, command }) => [1, object, command],
        Err(why) => [2, lent::refused(why), 0],
    }
}

// Sessions and budgets.

pub fn session_numbers(s: Session) -> [u32; 6]
    ensures { result ≡ session_numbers s }
{
    [
        s.entry,
        s.object,
        s.pc,
        s.odepth,
        s.tdepth,
        flag_number(s.pending),
    ]
}

// The session's numbers into an array that has room for just them.
pub fn put_session(s: Session, session: &mut [u32])
    requires { length session.old ≡ 6 }
    ensures { session.new ≡ session_numbers s }
{
    lent::put(session, &session_numbers(s));
}

// Any number but 0 is pending.
pub fn session_of(numbers: &[u32]) -> Session
    ensures { result ≡ session_of numbers.now }
{
    Session {
        entry: number_at(numbers, 0),
        object: number_at(numbers, 1),
        pc: number_at(numbers, 2),
        odepth: number_at(numbers, 3),
        tdepth: number_at(numbers, 4),
        pending: number_at(numbers, 5) != 0,
    }
}

pub fn budget_numbers(b: Budgets) -> [u32; 3]
    ensures { result ≡ budget_numbers b }
{
    [b.steps, b.objects, b.titles]
}

pub fn budgets_of(numbers: &[u32]) -> Budgets
    ensures { result ≡ budgets_of numbers.now }
{
    Budgets {
        steps: number_at(numbers, 0),
        objects: number_at(numbers, 1),
        titles: number_at(numbers, 2),
    }
}

// Requests and outcomes that have the same numbers are equal.
pub fn told_apart()
    ensures { ToldApart }
{}
