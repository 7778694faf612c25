// What the replays share: reading a list, comparing, and telling the end. It serves tests alone; the Rust has no such module.
#![tactic(auto)]

ghost use Rattle.std.specs.Prelude.{◌≡◌, ◌+◌, ◌<◌, get_or};
ghost use Rattle.word.specs.Word.{add_low};
ghost use Rattle.common.specs.Rules.{be2, be4};
ghost use Rattle.registers.specs.Rules.{banks};
ghost use Rattle.replay_list.specs.Rules.{part_of, onward_by, differs_by, apart, Same, compared, bank_differences, set_one, set_all, registers_end, compared_banks, differences_of};

use common::{byte_at, half_at, number_at, word_at};
use registers::Registers;
use std::io;
use std::io::Print;

// Where the reading goes on, and how much differed so far.
#[derive(Clone, Copy)]
pub struct Replayed {
    pub next: u32,
    pub wrong: u32,
}

// The list, big-endian, so many bytes past a place; past its end it is zero.

pub fn byte(input: &[u8], at: u32, past: u32) -> u32
    ensures { (result ≡ get_or input.now (at + past) 0) × (result < 256) }
{
    byte_at(input, at as usize + past as usize) as u32
}

pub fn half(input: &[u8], at: u32, past: u32) -> u32
    ensures { (result ≡ be2 input.now (at + past)) × (result < 65536) }
{
    half_at(input, at as usize + past as usize) as u32
}

pub fn number(input: &[u8], at: u32, past: u32) -> u32
    ensures { result ≡ be4 input.now (at + past) }
{
    word_at(input, at as usize + past as usize)
}

// So many bytes of the list from a place on; none where it ends before.
pub fn part(input: &[u8], at: u32, length: u32) -> &[u8]
    ensures { result.now ≡ part_of input.now at length }
{
    let from = at as usize;
    let to = from + length as usize;
    if to <= input.len() {
        &input[from..to]
    } else {
        &input[0..0]
    }
}

pub fn onward(start: Replayed, count: u32) -> Replayed
    ensures { result ≡ onward_by start count }
{
    Replayed {
        next: word::add(start.next, count),
        ..start
    }
}

// Comparing.

fn apart(a: u32, b: u32) -> u32
    ensures { result ≡ apart a b }
{
    if a == b { 0 } else { 1 }
}

pub fn differs(start: Replayed, count: u32) -> Replayed
    ensures { result ≡ differs_by start count }
{
    Replayed {
        wrong: word::add(start.wrong, count),
        ..start
    }
}

// Whether two lists are the same.
pub fn same(a: &[u8], b: &[u8]) -> bool
    ensures { Same a.now b.now result }
{
    a == b
}

// Compares numbers with those that the list goes on with, four bytes each.
#[tactic(auto, using(crate::proofs::Laws::low_zero, crate::proofs::Laws::low_then, crate::proofs::Laws::none_counted, crate::proofs::Laws::counted, crate::proofs::Laws::all_compared))]
pub fn compare(got: &[u32], input: &[u8], start: Replayed) -> Replayed
    ensures { result ≡ compared got.now input.now start }
{
    let mut next = start.next;
    let mut wrong = start.wrong;
    for x in got {
        wrong = word::add(wrong, apart(*x, number(input, next, 0)));
        next = word::add(next, 4);
    }
    Replayed { next, wrong }
}

// Registers.

// Counts the registers of a bank that differ from those expected, on from a start.
#[tactic(auto, using(crate::proofs::Laws::none_counted, crate::proofs::Laws::counted))]
fn compare_bank(got: &[u32], expected: &[u32], start: u32) -> u32
    ensures { result ≡ add_low start (bank_differences got.now expected.now) }
{
    let mut wrong = start;
    for (i, x) in got.iter().enumerate() {
        wrong = word::add(wrong, apart(*x, number_at(expected, i)));
    }
    wrong
}

// Sets the register that is listed at a place: 0 general and else status, its number, and the value.
#[tactic(auto, unfolding(crate::specs::Rules::set_one))]
pub fn set_one(gpr: &mut [u32], psr: &mut [u32], input: &[u8], at: u32)
    ensures { banks gpr.new psr.new
        ≡ set_one input.now at (banks gpr.old psr.old) }
{
    let index = half(input, at, 1) as u16;
    let value = number(input, at, 3);
    // What a bank of another size answers is not told: it stays as it is.
    let _ = if byte(input, at, 0) == 0 {
        Registers::set_gpr(gpr, index, value)
    } else {
        Registers::set_psr_player(psr, index, value)
    };
}

// Sets the registers that are listed at a place behind how many they are, and answers where the list goes on.
#[tactic(auto, using(crate::proofs::Laws::low_then, crate::proofs::Laws::none_set, crate::proofs::Laws::one_more, crate::proofs::Laws::all_set))]
pub fn set_all(gpr: &mut [u32], psr: &mut [u32], input: &[u8], at: u32) -> u32
    ensures { (banks gpr.new psr.new
        ≡ set_all input.now at (banks gpr.old psr.old)) × (result ≡ registers_end input.now at) }
{
    let count = half(input, at, 0);
    let mut next = word::add(at, 2);
    for _ in 0..count {
        set_one(gpr, psr, input, next);
        next = word::add(next, 7);
    }
    next
}

// Compares both banks with those whose registers that are not zero are listed next.
pub fn compare_registers(gpr: &[u32], psr: &[u32], input: &[u8], start: Replayed) -> Replayed
    ensures { result ≡ compared_banks (banks gpr.now psr.now) input.now start }
{
    let fresh = Registers::new();
    let mut general = fresh.gpr;
    let mut status = fresh.psr;
    let next = set_all(&mut general, &mut status, input, start.next);
    let wrong = compare_bank(gpr, &general, start.wrong);
    Replayed {
        next,
        wrong: compare_bank(psr, &status, wrong),
    }
}

// Telling.

pub fn print(rt: &impl Print, number: u32, words: &[u8]) -> io::Result<()> {
    print!(rt; "{number}")?;
    rt.write_all(words)
}

// How much differed in a list of so many bytes; one that goes on or that is cut differs too.
fn differences(replayed: Replayed, got: usize) -> u32
    ensures { result ≡ differences_of replayed got }
{
    let end = apart(replayed.next, (got % 0x1_0000_0000) as u32);
    word::add(replayed.wrong, end)
}

pub fn tell(rt: &impl Print, replayed: Replayed, got: usize) -> io::Result<()> {
    print(rt, differences(replayed, got), b" differences\n")
}
