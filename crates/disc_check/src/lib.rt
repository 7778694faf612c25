// The disc check: whether a command on the disc can ask for what the disc lacks. Added by design; the Rust has none.
#![tactic(auto)]

ghost use Rattle.std.specs.Prelude.{◌≡◌, ◌/◌, ◌≤◌, length};
ghost use Rattle.movie_object.specs.Rules.{count_of};
ghost use Rattle.disc_check.specs.Rules.{register_reach, reach_of, object_offends, leads_nowhere, title_offends, operation_offends, branch_offends, command_offends, first_command, first_object, check_of};
ghost use Rattle.disc_check.specs.Promise.{Exact, NeverBad};

use error::Refusal;
use nav_command::{BranchOp, CommandGroup, DecodedCommand, Operand, Operation, RegisterBank};
use nav_driver::Disc;

// What the check finds: nothing, or the first offending command in file order. No Option: None would have to say that a disc passes.
#[derive(Clone, Copy, Debug, PartialEq, Eq)]
pub enum DiscCheck {
    Passed,
    Offends { object: u32, command: u32 },
}

// The values that an operand can have, whatever the registers hold. No Option: None would have to say that it can have any.
#[derive(Clone, Copy)]
enum Reach {
    Always(u32),
    Anything,
}

#[tactic(auto, unfolding(crate::specs::Rules::register_reach))]
fn within(index: u16, size: u16) -> Reach
    ensures { result ≡ register_reach index size }
{
    if index < size {
        Reach::Anything
    } else {
        Reach::Always(0)
    }
}

fn reach_of(a: Operand) -> Reach
    ensures { result ≡ reach_of a }
{
    match a {
        Operand::Absent => Reach::Always(0),
        Operand::Immediate(value) => Reach::Always(value),
        Operand::Register { bank, index } => match bank {
            RegisterBank::Gpr => within(index, 4096),
            RegisterBank::Psr | RegisterBank::PsrSecondary => within(index, 128),
        },
    }
}

// An object that the disc lacks can be asked for.
fn object_offends(disc: &Disc, r: Reach) -> bool
    ensures { result ≡ object_offends (count_of disc.now.objects) r }
{
    match r {
        Reach::Always(object) => disc.objects.count() <= object,
        Reach::Anything => true,
    }
}

// A title that leads to no object of the disc can be asked for; register contents can always name title 0.
fn title_offends(disc: &Disc, r: Reach) -> bool
    ensures { result ≡ title_offends disc.now.index (count_of disc.now.objects) r }
{
    match r {
        Reach::Always(title) => leads_nowhere(disc, title % 65536),
        Reach::Anything => true,
    }
}

#[tactic(auto, unfolding(crate::specs::Rules::leads_nowhere))]
fn leads_nowhere(disc: &Disc, title: u32) -> bool
    ensures { result ≡ leads_nowhere disc.now.index (count_of disc.now.objects) title }
{
    match disc.index.resolve(title) {
        Some(object) => disc.objects.count() <= u32::from(object),
        None => true,
    }
}

fn branch_offends(disc: &Disc, op: BranchOp, r: Reach) -> bool
    ensures { result ≡ branch_offends disc.now.index (count_of disc.now.objects) op r }
{
    match op {
        BranchOp::JumpObject | BranchOp::CallObject => object_offends(disc, r),
        BranchOp::JumpTitle | BranchOp::CallTitle => title_offends(disc, r),
        _ => false,
    }
}

fn operation_offends(disc: &Disc, operation: Operation, a: Operand) -> bool
    ensures { result ≡ operation_offends disc.now.index (count_of disc.now.objects) operation a }
{
    match operation {
        Operation::Branch(op) => branch_offends(disc, op, reach_of(a)),
        _ => false,
    }
}

// Whether a command can ask, with some register contents, for what the disc lacks.
#[tactic(auto, unfolding(crate::specs::Rules::command_offends))]
fn command_offends(disc: &Disc, command: DecodedCommand) -> bool
    ensures { result ≡ command_offends disc.now.index (count_of disc.now.objects) command }
{
    match command.group {
        CommandGroup::Branch => operation_offends(disc, command.operation, command.operand1),
        _ => false,
    }
}

// The first offending command of an object, if there is one.
#[tactic(auto, using(crate::proofs::Walk::at_start, crate::proofs::Walk::command_end, crate::proofs::Walk::command_found, crate::proofs::Walk::command_passed))]
fn first_command(disc: &Disc, commands: &[u8]) -> Option<u32>
    requires { length commands.now / 12 ≤ 1398101 }
    ensures { result ≡ first_command disc.now.index (count_of disc.now.objects) commands.now (length commands.now / 12) 0 }
{
    for k in 0..commands.len() / 12 {
        let bytes = vm::fetch(commands, 12 * k);
        if command_offends(disc, DecodedCommand::decode(&bytes)) {
            return Some(k as u32);
        }
    }
    None
}

#[tactic(auto, using(crate::proofs::Walk::at_start, crate::proofs::Walk::object_end, crate::proofs::Walk::object_found, crate::proofs::Walk::object_passed))]
fn first_object(disc: &Disc) -> DiscCheck
    ensures { result ≡ first_object disc.now.index disc.now.objects (count_of disc.now.objects) 0 }
{
    for object in 0..disc.objects.count() {
        if let Some(command) = first_command(disc, disc.objects.commands(object)) {
            return DiscCheck::Offends { object, command };
        }
    }
    DiscCheck::Passed
}

#[tactic(auto, unfolding(crate::specs::Rules::check_of))]
fn check_with(index: &[u8], file: &[u8], places: &mut [u32]) -> Result<DiscCheck, Refusal>
    requires { count_of file.now ≤ length places.old }
    ensures { result ≡ check_of index.now file.now }
{
    let disc = Disc::read(index, file, places)?;
    Ok(first_object(&disc))
}

// Checks the two files of a disc: every command counts, whether or not a run would meet it. The table must stand in this frame.
#[tactic(auto, using(mobj_runner::specs::Laws::count_small))]
pub fn check(index: &[u8], file: &[u8]) -> Result<DiscCheck, Refusal>
    ensures { result ≡ check_of index.now file.now }
{
    if movie_object::object_count(file) <= 1024 {
        check_with(index, file, &mut [0; 1024])
    } else {
        check_with(index, file, &mut [0; 65536])
    }
}

// Demand 3: the check names the first command that, with some registers, asks for what the disc lacks, and else passes.
pub fn check_is_exact()
    ensures { Exact }
{}

// Demand 3: a passed disc, started at an entry that leads to an object, never ends in bad object or bad title, nor is its session refused.
pub fn passed_disc_is_never_bad()
    ensures { NeverBad }
{}
