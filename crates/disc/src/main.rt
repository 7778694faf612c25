// Checks a disc: passed, or the first command that can ask for what the disc lacks, with its listing and what it asks for.
#![tactic(auto)]

use console::Refused;
use disc_check::DiscCheck;
use error::Refusal;
use movie_object::MovieObjects;
use nav_command::{BranchOp, DecodedCommand, Operand, Operation, RegisterBank};
use std::env::Env;
use std::io::{Eprint, Print};
use std::rt::Files;
use std::{fmt, io};

fn main(rt: HostRuntime) -> io::Result<()> {
    if console::word_count(&rt) != 3 {
        return println!(rt; "usage: disc INDEX.BDMV MOVIEOBJECT.BDMV");
    }
    let mut index = [0u8; 1048577];
    with_index(&rt, &mut index)
}

fn with_index<R: Env + Files + Print + Eprint>(rt: &R, index: &mut [u8]) -> io::Result<()> {
    let n = console::read_file(rt, 1, index)?;
    if n < index.len() {
        with_read(rt, &index[..n])?;
    }
    Ok(())
}

fn with_read<R: Env + Files + Print + Eprint>(rt: &R, index: &[u8]) -> io::Result<()> {
    let mut objects = [0u8; 1048577];
    with_objects(rt, index, &mut objects)
}

fn with_objects<R: Env + Files + Print + Eprint>(
    rt: &R,
    index: &[u8],
    objects: &mut [u8],
) -> io::Result<()> {
    let n = console::read_file(rt, 2, objects)?;
    if n < objects.len() {
        print_check(rt, index, &objects[..n])?;
    }
    Ok(())
}

fn print_check(rt: &impl Print, index: &[u8], objects: &[u8]) -> io::Result<()> {
    match disc_check::check(index, objects) {
        Ok(DiscCheck::Passed) => println!(rt; "passed"),
        Ok(DiscCheck::Offends { object, command }) => {
            print!(rt; "object {object}, command {command}: ")?;
            print_command(
                rt,
                command_at(MovieObjects::commands(objects, object), command),
            )
        }
        Err(why) => print_refused(rt, index, why),
    }
}

// The index file is tested first.
fn print_refused(rt: &impl Print, index: &[u8], why: Refusal) -> io::Result<()> {
    let file = if index_bdmv::verdict(index).is_err() {
        "index"
    } else {
        "object"
    };
    println!(rt; "{file} file {}", Refused(why))
}

// Command k of an object, which has it: else all of its bytes are 0.
fn command_at(commands: &[u8], k: u32) -> DecodedCommand {
    let (chunks, _) = commands.as_chunks::<12>();
    let bytes = chunks.get(k as usize).copied().unwrap_or([0; 12]);
    DecodedCommand::decode(&bytes)
}

fn print_command(rt: &impl Print, command: DecodedCommand) -> io::Result<()> {
    print_listed(rt, command)?;
    let asked = command.operand1;
    match command.operation {
        Operation::Branch(BranchOp::JumpObject | BranchOp::CallObject) => {
            print_asked(rt, "object", asked, "is not on the disc")
        }
        Operation::Branch(BranchOp::JumpTitle | BranchOp::CallTitle) => {
            print_asked(
                rt,
                "title",
                title_in(asked),
                "leads to no object of the disc",
            )
        }
        _ => Ok(()),
    }
}

fn print_listed(rt: &impl Print, command: DecodedCommand) -> io::Result<()> {
    let mut line = [0u8; 112];
    if let Ok(end) = nav_list::list(command, &mut line, 0) {
        console::say_first(rt, end, &line)?;
    }
    println!(rt)
}

// A title's number is the low half of an operand's.
fn title_in(a: Operand) -> Operand {
    match a {
        Operand::Immediate(number) => Operand::Immediate(number % 65536),
        Operand::Absent | Operand::Register { .. } => a,
    }
}

// What an operand asks for, and what the disc lacks.
fn print_asked(rt: &impl Print, kind: &str, a: Operand, lack: &str) -> io::Result<()> {
    let number = match a {
        Operand::Absent => 0,
        Operand::Immediate(number) => number,
        Operand::Register { bank, index } => {
            let register = Register { bank, index };
            return println!(rt; "it asks for whatever {kind} {register} holds");
        }
    };
    println!(rt; "it asks for {kind} {number}, which {lack}")
}

// A register as the program names it.
#[derive(Clone, Copy)]
struct Register {
    bank: RegisterBank,
    index: u16,
}

impl fmt::Display for Register {
    fn fmt<W: fmt::Write>(&self, f: &mut fmt::Formatter<W>) -> fmt::Result {
        let kind = match self.bank {
            RegisterBank::Gpr => "general",
            RegisterBank::Psr | RegisterBank::PsrSecondary => "status",
        };
        write!(f, "{kind} register {}", self.index)
    }
}
