// Replays the disc check on the discs that compare/src/bin/answers_check.rs lists, and prints how many there are and how many differ.
#![tactic(auto)]

use replay_list::{Replayed, half};
use std::io;
use std::io::{Input, Print};

fn replay(input: &[u8], so_far: Replayed) -> Replayed {
    let indexed = half(input, so_far.next, 0);
    let from = word::add(so_far.next, 2);
    let index = replay_list::part(input, from, indexed);
    let then = word::add(from, indexed);
    let filed = half(input, then, 0);
    let start = word::add(then, 2);
    let file = replay_list::part(input, start, filed);
    let told = Replayed {
        next: word::add(start, filed),
        ..so_far
    };
    let found = numbers::check_numbers(disc_check::check(index, file));
    replay_list::compare(&found, input, told)
}

fn replay_all(input: &[u8], discs: u32) -> Replayed {
    let mut so_far = Replayed { next: 2, wrong: 0 };
    for _ in 0..discs {
        so_far = replay(input, so_far);
    }
    so_far
}

fn replay_read<R: Input + Print>(rt: &R, input: &mut [u8]) -> io::Result<()> {
    let got = console::read_full(&mut rt.reader(), input)?;
    let discs = half(input, 0, 0);
    let replayed = replay_all(input, discs);
    replay_list::print(rt, discs, b" discs, ")?;
    replay_list::tell(rt, replayed, got)
}

fn main(rt: HostRuntime) -> io::Result<()> {
    let mut input = [0u8; 300000];
    replay_read(&rt, &mut input)
}
