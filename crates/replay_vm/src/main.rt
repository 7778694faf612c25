// Replays the cases that compare/src/bin/answers_vm.rs lists, and prints how many there are and how many answers or registers differ.
#![tactic(auto)]

use error::Refusal;
use registers::Registers;
use replay_list::{Replayed, byte, half, number, onward};
use std::io;
use std::io::{Input, Print};
use vm::{HdmvVm, Stepped};

// A machine, its commands, and the banks that it is lent to write to.
#[derive(Drop)]
struct Bench<'a> {
    machine: HdmvVm,
    commands: &'a [u8],
    gpr: &'a mut [u32],
    psr: &'a mut [u32],
}

// Compares an answer with the five numbers and the pc that are listed next; the pc is 0 where it is refused.
fn compare_answer(
    answer: Result<Stepped, Refusal>,
    input: &[u8],
    so_far: Replayed,
) -> (usize, Replayed) {
    match answer {
        Ok(stepped) => {
            let numbers = numbers::step_numbers(stepped.step);
            let told = replay_list::compare(&numbers, input, so_far);
            let stands = [(stepped.pc % 0x1_0000_0000) as u32];
            (stepped.pc, replay_list::compare(&stands, input, told))
        }
        Err(_) => (0, replay_list::differs(so_far, 1)),
    }
}

impl Bench<'_> {
    fn call(&mut self, run: bool) -> Result<Stepped, Refusal> {
        if run {
            self.machine.run(self.gpr, self.psr, self.commands)
        } else {
            self.machine.step(self.gpr, self.psr, self.commands)
        }
    }

    // Makes the calls that are listed next, each from where the last left off.
    fn call_all(&mut self, input: &[u8], start: Replayed) -> Replayed {
        let mut so_far = onward(start, 1);
        for _ in 0..byte(input, start.next, 0) {
            let run = byte(input, so_far.next, 0) == 1;
            let answer = self.call(run);
            (self.machine.pc, so_far) = compare_answer(answer, input, onward(so_far, 1));
        }
        so_far
    }
}

// A case on banks that are all zero.
fn replay(input: &[u8], so_far: Replayed) -> Replayed {
    let mut fresh = Registers::new();
    let at = so_far.next;
    let length = 12 * half(input, at, 0);
    let machine = HdmvVm {
        pc: number(input, at, 2) as usize,
        budget: number(input, at, 6),
    };
    let from = replay_list::set_all(&mut fresh.gpr, &mut fresh.psr, input, word::add(at, 10));
    let start = Replayed {
        next: word::add(from, length),
        ..so_far
    };
    let mut bench = Bench {
        machine,
        commands: replay_list::part(input, from, length),
        gpr: &mut fresh.gpr,
        psr: &mut fresh.psr,
    };
    let made = bench.call_all(input, start);
    replay_list::compare_registers(&fresh.gpr, &fresh.psr, input, made)
}

fn replay_all(input: &[u8], cases: u32) -> Replayed {
    let mut so_far = Replayed { next: 2, wrong: 0 };
    for _ in 0..cases {
        so_far = replay(input, so_far);
    }
    so_far
}

fn replay_read<R: Input + Print>(rt: &R, input: &mut [u8]) -> io::Result<()> {
    let got = console::read_full(&mut rt.reader(), input)?;
    let cases = half(input, 0, 0);
    let replayed = replay_all(input, cases);
    replay_list::print(rt, cases, b" cases, ")?;
    replay_list::tell(rt, replayed, got)
}

fn main(rt: HostRuntime) -> io::Result<()> {
    let mut input = [0u8; 400000];
    replay_read(&rt, &mut input)
}
