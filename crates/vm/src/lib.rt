// The command machine: one command, and a run of commands, on two lent banks of registers (the Rust's vm.rs).
#![tactic(auto)]

ghost use Rattle.std.specs.Prelude.{◌≡◌, ◌+◌, ◌≤◌, length};
ghost use Rattle.nav_command.specs.Rules.{command_of, sub_of};
ghost use Rattle.nav_command.specs.Rules as nav;
ghost use Rattle.registers.specs.Lent.{held, Same};
ghost use Rattle.registers.specs.Rules.{banks};
ghost use Rattle.vm.specs.Laws.{OneAnswer};
ghost use Rattle.vm.specs.Rules.{after, with, on, halted, leaves, go_to, exec_branch, holds_for, compare_of, system_of, exec_of, fetched, step_of, next_of, run_of, fresh, commands_of, budget_of, verdict_of, step_answer, plain, run_answer};
ghost use Rattle.vm.specs.Pieces.{raw_first, raw_second, as_branch, as_compare, as_set, single};

use error::Refusal;
use nav_command::Operation;
use registers::{Banks, Raw, Registers};

// A transition that the machine hands to the player, with its operands' values.
#[derive(Clone, Copy)]
pub enum NavRequest {
    JumpObject(u32),
    JumpTitle(u32),
    CallObject(u32),
    CallTitle(u32),
    Resume,
    PlayPlayList(u32),
    PlayPlayListAtPlayItem(u32, u32),
    PlayPlayListAtMark(u32, u32),
    TerminatePlayList,
    LinkPlayItem(u32),
    LinkMark(u32),
    SetSystem {
        op: Operation,
        operand1: u32,
        operand2: u32,
    },
}

// What one command answers.
#[derive(Clone, Copy)]
pub enum Step {
    Continue,
    Skipped,
    Halted,
    Branch(NavRequest),
}

// What one command answers, and where the machine goes on.
#[derive(Clone, Copy)]
pub struct Stepped {
    pub step: Step,
    pub pc: usize,
}

// Where a machine goes on, and how many steps a run may take.
#[derive(Clone, Copy)]
pub struct HdmvVm {
    pub pc: usize,
    pub budget: u32,
}

// Why a run ended.
#[derive(Clone, Copy)]
pub enum End {
    Halted,
    Spent,
    Branch(NavRequest),
}

// How a run ended, where it stopped, how many steps it took, and whether it was spent on a step that skipped a command.
#[derive(Clone, Copy)]
pub struct Ran {
    pub end: End,
    pub pc: usize,
    pub steps: u32,
    pub skipped: bool,
}

// Whether a run goes on after a step, and then whether the step skipped a command. No ControlFlow: its names would say neither.
#[derive(Clone, Copy)]
enum Next {
    Go(bool),
    Stop(End),
}

// Branches.

fn go_on(pc: usize) -> Stepped
    ensures { result ≡ on pc }
{
    Stepped {
        step: Step::Continue,
        pc,
    }
}

fn halt(pc: usize) -> Stepped
    ensures { result ≡ halted pc }
{
    Stepped {
        step: Step::Halted,
        pc,
    }
}

fn leave(request: NavRequest, pc: usize) -> Stepped
    ensures { result ≡ leaves request pc }
{
    Stepped {
        step: Step::Branch(request),
        pc,
    }
}

fn go_to(target: u32, pc: usize, count: usize) -> Stepped
    ensures { result ≡ go_to target pc count }
{
    let at = target as usize;
    if at < count { go_on(at) } else { halt(pc) }
}

// A branch by its sub-group and option in the file; what has no name does nothing.
#[tactic(auto, unfolding(nav_command::specs::Rules::branch_of))]
fn branch(sub: u8, option: u8, x: u32, y: u32, pc: usize, count: usize) -> Stepped
    ensures { result ≡ exec_branch (nav.branch_of sub option) x y pc count }
{
    match (sub, option) {
        (0, 1) => go_to(x, pc, count),
        (0, 2) => halt(pc),
        (1, 0) => leave(NavRequest::JumpObject(x), pc),
        (1, 1) => leave(NavRequest::JumpTitle(x), pc),
        (1, 2) => leave(NavRequest::CallObject(x), pc),
        (1, 3) => leave(NavRequest::CallTitle(x), pc),
        (1, 4) => leave(NavRequest::Resume, pc),
        (2, 0) => leave(NavRequest::PlayPlayList(x), pc),
        (2, 1) => leave(NavRequest::PlayPlayListAtPlayItem(x, y), pc),
        (2, 2) => leave(NavRequest::PlayPlayListAtMark(x, y), pc),
        (2, 3) => leave(NavRequest::TerminatePlayList, pc),
        (2, 4) => leave(NavRequest::LinkPlayItem(x), pc),
        (2, 5) => leave(NavRequest::LinkMark(x), pc),
        _ => go_on(pc),
    }
}

// Compares.

// Whether a compare holds, by its code in the file: Bc, Eq, Ne, Ge, Gt, Le, Lt; one that has no name holds.
#[tactic(auto, unfolding(nav_command::specs::Rules::compare_of))]
fn holds(code: u8, x: u32, y: u32) -> bool
    ensures { result ≡ holds_for (nav.compare_of 0 code) x y }
{
    match code {
        1 => word::and(x, y) != 0,
        2 => x == y,
        3 => x != y,
        4 => x >= y,
        5 => x > y,
        6 => x <= y,
        7 => x < y,
        _ => true,
    }
}

// A compare that fails skips the next command, if there is one.
#[tactic(auto, unfolding(crate::specs::Rules::compare_of))]
fn compare(held: bool, pc: usize, count: usize) -> Stepped
    ensures { result ≡ compare_of held pc count }
{
    if held {
        go_on(pc)
    } else {
        Stepped {
            step: Step::Skipped,
            pc: if pc < count { pc + 1 } else { count },
        }
    }
}

// A request of sub-group 1, its code known or not.
fn system(code: u8, x: u32, y: u32, pc: usize) -> Stepped
    ensures { result ≡ system_of (nav.set_of 1 code) x y pc }
{
    let request = NavRequest::SetSystem {
        op: nav_command::system_of(code),
        operand1: x,
        operand2: y,
    };
    leave(request, pc)
}

// The twelve bytes of a command. That they are there is said of each call here, since the place goes on with every step.
pub fn fetch(commands: &[u8], at: usize) -> [u8; 12]
    requires { at + 12 ≤ length commands.now }
    ensures { result ≡ fetched commands.now at }
{
    let mut bytes = [0; 12];
    bytes.copy_from_slice(&commands[at..at + 12]);
    bytes
}

// One command: the twelve bytes at a place, one of `count` commands, with pc already past it.

#[tactic(auto, using(crate::proofs::Laws::first_word))]
fn first(commands: &[u8], at: usize) -> Raw
    requires { at + 12 ≤ length commands.now }
    ensures { result ≡ raw_first (fetched commands.now at) }
{
    Raw {
        there: commands[at] / 32 >= 1,
        immediate: commands[at + 1] / 128 == 1,
        word: common::be32(commands, at + 4),
    }
}

#[tactic(auto, using(crate::proofs::Laws::second_word))]
fn second(commands: &[u8], at: usize) -> Raw
    requires { at + 12 ≤ length commands.now }
    ensures { result ≡ raw_second (fetched commands.now at) }
{
    Raw {
        there: commands[at] / 32 >= 2,
        immediate: commands[at + 1] / 64 % 2 == 1,
        word: common::be32(commands, at + 8),
    }
}

#[tactic(auto, unfolding(crate::specs::Pieces::as_branch))]
fn exec_branch(banks: &Banks, commands: &[u8], at: usize, pc: usize, count: usize) -> Stepped
    requires { at + 12 ≤ length commands.now }
    ensures { result ≡ as_branch (fetched commands.now at) pc count (held banks.now) }
{
    let sub = commands[at] % 8;
    let option = commands[at + 1] % 16;
    let x = banks.value(first(commands, at));
    let y = banks.value(second(commands, at));
    branch(sub, option, x, y, pc, count)
}

#[tactic(auto, using(crate::proofs::Laws::any_sub), unfolding(crate::specs::Pieces::as_compare))]
fn exec_compare(banks: &Banks, commands: &[u8], at: usize, pc: usize, count: usize) -> Stepped
    requires { at + 12 ≤ length commands.now }
    ensures { result ≡ as_compare (fetched commands.now at) pc count (held banks.now) }
{
    let code = commands[at + 2];
    let x = banks.value(first(commands, at));
    let y = banks.value(second(commands, at));
    compare(holds(code, x, y), pc, count)
}

// A Set of the first sub-group.
#[tactic(auto, unfolding(crate::specs::Pieces::as_set, crate::specs::Rules::exec_set))]
fn exec_set(banks: &mut Banks, commands: &[u8], at: usize, pc: usize) -> Stepped
    requires { (at + 12 ≤ length commands.now) × (sub_of (fetched commands.now at) ≡ 0) }
    ensures same { Same banks.old banks.new }
    ensures left { with (held banks.new) result ≡ as_set (fetched commands.now at) pc (held banks.old) }
{
    let code = commands[at + 3];
    let a = first(commands, at);
    let b = second(commands, at);
    banks.set(code, a, b);
    go_on(pc)
}

// A Set of the second: a request of the player.
#[tactic(auto, unfolding(crate::specs::Pieces::as_set, crate::specs::Rules::exec_set))]
fn exec_system(banks: &Banks, commands: &[u8], at: usize, pc: usize) -> Stepped
    requires { (at + 12 ≤ length commands.now) × (sub_of (fetched commands.now at) ≡ 1) }
    ensures { with (held banks.now) result ≡ as_set (fetched commands.now at) pc (held banks.now) }
{
    let code = commands[at + 3];
    let x = banks.value(first(commands, at));
    let y = banks.value(second(commands, at));
    system(code, x, y, pc)
}

// By group and sub-group at once, so that a step branches once. Each reads the operands that it needs.
#[tactic(auto, using(crate::proofs::Laws::no_set), unfolding(crate::specs::Pieces::as_branch, crate::specs::Pieces::as_compare, crate::specs::Pieces::as_set, crate::specs::Rules::exec_of, crate::specs::Rules::acted, nav_command::specs::Rules::command_of))]
fn exec(banks: &mut Banks, commands: &[u8], at: usize, pc: usize, count: usize) -> Stepped
    requires { at + 12 ≤ length commands.now }
    ensures same { Same banks.old banks.new }
    ensures left { with (held banks.new) result
        ≡ exec_of (command_of (fetched commands.now at)) pc count (held banks.old) }
{
    match commands[at] % 32 {
        0..=7 => exec_branch(banks, commands, at, pc, count),
        8..=15 => exec_compare(banks, commands, at, pc, count),
        16 => exec_set(banks, commands, at, pc),
        17 => exec_system(banks, commands, at, pc),
        _ => go_on(pc),
    }
}

// Fetches, advances and obeys; past the last command it halts.
#[tactic(auto, unfolding(crate::specs::Rules::step_of))]
fn obey(banks: &mut Banks, commands: &[u8], pc: usize) -> Stepped
    ensures same { Same banks.old banks.new }
    ensures left { with (held banks.new) result ≡ step_of commands.now pc (held banks.old) }
{
    let count = commands.len() / 12;
    if pc < count {
        exec(banks, commands, 12 * pc, pc + 1, count)
    } else {
        halt(pc)
    }
}

// A run of commands.

fn what_next(step: Step) -> Next
    ensures { result ≡ next_of step }
{
    match step {
        Step::Continue => Next::Go(false),
        Step::Skipped => Next::Go(true),
        Step::Halted => Next::Stop(End::Halted),
        Step::Branch(request) => Next::Stop(End::Branch(request)),
    }
}

// Steps from a place on until the machine halts, asks for a transition or has spent its budget. The banks are its own: through a reference each step would read anew where they stand.
fn run_on(gpr: &mut [u32], psr: &mut [u32], commands: &[u8], pc: usize, budget: u32) -> Ran
    ensures { after gpr.new psr.new result
        ≡ run_of commands.now budget 0 pc (banks gpr.old psr.old) }
{
    let mut banks = Banks { gpr, psr };
    let mut at = pc;
    let mut skipped = false;
    for steps in 0..budget {
        let stepped = obey(&mut banks, commands, at);
        at = stepped.pc;
        match what_next(stepped.step) {
            Next::Go(skips) => skipped = skips,
            Next::Stop(end) => {
                return Ran {
                    end,
                    pc: at,
                    steps: steps + 1,
                    skipped: false,
                };
            }
        }
    }
    Ran {
        end: End::Spent,
        pc: at,
        steps: budget,
        skipped,
    }
}

// The same on banks that stand together.
pub fn run_commands(banks: &mut Banks, commands: &[u8], pc: usize, budget: u32) -> Ran
    ensures same { Same banks.old banks.new }
    ensures left { with (held banks.new) result ≡ run_of commands.now budget 0 pc (held banks.old) }
{
    run_on(banks.gpr, banks.psr, commands, pc, budget)
}

// The public calls.

#[tactic(auto, unfolding(crate::specs::Rules::commands_of))]
fn check_commands(commands: &[u8]) -> Result<(), Refusal>
    ensures { result ≡ commands_of commands.now }
{
    registers::refuse_unless(Refusal::BadBuffer, commands.len() % 12 == 0)
}

#[tactic(auto, unfolding(crate::specs::Rules::budget_of))]
fn check_budget(budget: u32) -> Result<(), Refusal>
    ensures { result ≡ budget_of budget }
{
    registers::refuse_unless(Refusal::BadBudget, budget <= HdmvVm::STEP_BUDGET)
}

fn check(gpr: &[u32], psr: &[u32], commands: &[u8], budget: u32) -> Result<(), Refusal>
    ensures { result ≡ verdict_of commands.now budget (banks gpr.now psr.now) }
{
    let general = registers::check_bank(Registers::GPR_COUNT, gpr);
    let status = registers::check_bank(Registers::PSR_COUNT, psr);
    let banks = error::first_of(general, status);
    let handed = error::first_of(banks, check_commands(commands));
    error::first_of(handed, check_budget(budget))
}

// The answer of a run that took one step.
fn single_step(end: End, skipped: bool) -> Step
    ensures { result ≡ single end skipped }
{
    match end {
        End::Halted => Step::Halted,
        End::Spent if skipped => Step::Skipped,
        End::Spent => Step::Continue,
        End::Branch(request) => Step::Branch(request),
    }
}

// The answer of a plain run, which doesn't say whether its steps were spent.
fn plain_step(end: End) -> Step
    ensures { result ≡ plain end }
{
    match end {
        End::Halted | End::Spent => Step::Halted,
        End::Branch(request) => Step::Branch(request),
    }
}

impl HdmvVm {
    pub const STEP_BUDGET: u32 = 1_000_000;

    // A machine at its first command.
    pub fn new() -> Self
        ensures { result ≡ fresh }
    {
        Self {
            pc: 0,
            budget: Self::STEP_BUDGET,
        }
    }

    // Obeys the command at pc; past the last command it halts.
    #[tactic(auto, unfolding(crate::specs::Rules::step_answer, crate::specs::Rules::answered))]
    pub fn step(self, gpr: &mut [u32], psr: &mut [u32], commands: &[u8]) -> Result<Stepped, Refusal>
        ensures { after gpr.new psr.new result
            ≡ step_answer commands.now self.pc self.budget (banks gpr.old psr.old) }
    {
        check(gpr, psr, commands, self.budget)?;
        let ran = run_on(gpr, psr, commands, self.pc, 1);
        Ok(Stepped {
            step: single_step(ran.end, ran.skipped),
            pc: ran.pc,
        })
    }

    // Steps until the machine halts, asks for a transition or has spent its budget.
    #[tactic(auto, unfolding(crate::specs::Rules::run_answer, crate::specs::Rules::answered))]
    pub fn run(self, gpr: &mut [u32], psr: &mut [u32], commands: &[u8]) -> Result<Stepped, Refusal>
        ensures { after gpr.new psr.new result
            ≡ run_answer commands.now self.pc self.budget (banks gpr.old psr.old) }
    {
        check(gpr, psr, commands, self.budget)?;
        let ran = run_on(gpr, psr, commands, self.pc, self.budget);
        Ok(Stepped {
            step: plain_step(ran.end),
            pc: ran.pc,
        })
    }
}

// Any two answers that a promise of the public calls allows are equal.
pub fn one_answer()
    ensures { OneAnswer }
{}
