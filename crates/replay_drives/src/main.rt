// Replays the runs that compare/src/bin/answers_drives.rs lists, and prints how many there are and how many numbers differ.
#![tactic(auto)]

use error::Refusal;
use nav_driver::DriveEnd;
use registers::Registers;
use replay_list::{Replayed, byte, compare, differs, half, number, onward};
use session::{Budgets, Session};
use std::io;
use std::io::{Input, Print};

// What a call is asked: where to start, or to go on, and its budgets.
#[derive(Clone, Copy)]
struct Asked {
    start: Option<u32>,
    budgets: Budgets,
}

// The session that a call left, and how much differed.
#[derive(Clone, Copy)]
struct Called {
    session: Session,
    so_far: Replayed,
}

// The session that an answer hands back, and the numbers of its outcome.
#[derive(Clone, Copy)]
struct Ended {
    session: Session,
    outcome: [u32; 6],
}

// The two files of a disc.
#[derive(Clone, Copy)]
struct Disc<'a> {
    index: &'a [u8],
    file: &'a [u8],
}

// A disc, and the rooms that its calls are lent.
#[derive(Drop)]
struct Player<'a> {
    disc: Disc<'a>,
    gpr: &'a mut [u32],
    psr: &'a mut [u32],
    frames: &'a mut [u32],
    titles: &'a mut [u32],
}

fn read_call(input: &[u8], at: u32) -> Asked {
    let budgets = Budgets {
        steps: half(input, at, 5),
        objects: half(input, at, 7),
        titles: half(input, at, 9),
    };
    let resumes = byte(input, at, 0) % 2 == 1;
    let start = if resumes {
        None
    } else {
        Some(number(input, at, 1))
    };
    Asked { start, budgets }
}

// Comparing.

// The numbers of an outcome against those that are listed next; a refusal differs, and leaves the session as it was.
fn compare_end(
    answer: Result<Ended, Refusal>,
    s: Session,
    input: &[u8],
    so_far: Replayed,
) -> Called {
    match answer {
        Ok(end) => Called {
            session: end.session,
            so_far: compare(&end.outcome, input, so_far),
        },
        Err(_) => Called {
            session: s,
            so_far: differs(so_far, 1),
        },
    }
}

// So many numbers of a frame room, or all where there are fewer.
fn live(room: &[u32], count: u32) -> &[u32] {
    let to = count as usize;
    if to <= room.len() { &room[0..to] } else { room }
}

impl Player<'_> {
    // Compares a session and its live frames with those that are listed next; its depths there tell how many frames follow.
    fn compare_session(&self, called: Called, input: &[u8]) -> Called {
        let so_far = called.so_far;
        let numbers = numbers::session_numbers(called.session);
        let objects = 2 * half(input, so_far.next, 14);
        let entries = 3 * half(input, so_far.next, 18);
        let stands = compare(&numbers, input, so_far);
        let framed = compare(live(self.frames, objects), input, stands);
        Called {
            so_far: compare(live(self.titles, entries), input, framed),
            ..called
        }
    }

    fn compare_registers(&self, input: &[u8], so_far: Replayed) -> Replayed {
        replay_list::compare_registers(self.gpr, self.psr, input, so_far)
    }
}

// Calls.

// On single rooms, not a player: a field that is read beside fields that are lent is not covered by the borrow checker.
fn run_objects(
    gpr: &mut [u32],
    psr: &mut [u32],
    frames: &mut [u32],
    titles: &mut [u32],
    file: &[u8],
    s: Session,
    a: Asked,
) -> Result<Ended, Refusal> {
    let end = match a.start {
        Some(start) => mobj_runner::run(gpr, psr, frames, titles, file, s, start, a.budgets)?,
        None => mobj_runner::resume(gpr, psr, frames, titles, file, s, a.budgets)?,
    };
    let outcome = numbers::run_numbers(end.outcome);
    Ok(Ended {
        session: end.session,
        outcome,
    })
}

impl Player<'_> {
    fn run_titles(&mut self, s: Session, a: Asked) -> Result<Ended, Refusal> {
        let end = match a.start {
            Some(start) => self.run(s, start, a.budgets)?,
            None => self.resume(s, a.budgets)?,
        };
        let outcome = numbers::drive_numbers(end.outcome);
        Ok(Ended {
            session: end.session,
            outcome,
        })
    }

    fn run(&mut self, s: Session, start: u32, b: Budgets) -> Result<DriveEnd, Refusal> {
        let Disc { index, file } = self.disc;
        nav_driver::run(
            self.gpr,
            self.psr,
            self.frames,
            self.titles,
            index,
            file,
            s,
            start,
            b,
        )
    }

    fn resume(&mut self, s: Session, b: Budgets) -> Result<DriveEnd, Refusal> {
        let Disc { index, file } = self.disc;
        nav_driver::resume(
            self.gpr,
            self.psr,
            self.frames,
            self.titles,
            index,
            file,
            s,
            b,
        )
    }

    // The call that is listed next: 0 and 1 run and resume the runner, 2 and 3 the driver.
    fn call(&mut self, s: Session, input: &[u8], so_far: Replayed) -> Called {
        let a = read_call(input, so_far.next);
        let answer = if byte(input, so_far.next, 0) < 2 {
            let file = self.disc.file;
            run_objects(self.gpr, self.psr, self.frames, self.titles, file, s, a)
        } else {
            self.run_titles(s, a)
        };
        compare_end(answer, s, input, onward(so_far, 11))
    }

    // Makes the call or the player's write that is listed next, and compares what it leaves.
    fn turn(&mut self, s: Session, input: &[u8], so_far: Replayed) -> Called {
        if byte(input, so_far.next, 0) == 4 {
            replay_list::set_one(self.gpr, self.psr, input, word::add(so_far.next, 1));
            return Called {
                session: s,
                so_far: onward(so_far, 8),
            };
        }
        let called = self.call(s, input, so_far);
        self.compare_session(called, input)
    }

    // Makes the calls that are listed next, each from where the last left off, and compares all registers after each.
    fn call_all(&mut self, input: &[u8], start: Replayed) -> Replayed {
        let mut s = Session::new();
        let mut so_far = onward(start, 1);
        for _ in 0..byte(input, start.next, 0) {
            let called = self.turn(s, input, so_far);
            s = called.session;
            so_far = self.compare_registers(input, called.so_far);
        }
        so_far
    }
}

// Calls on fresh registers and frame rooms.
fn replay_on(disc: Disc, input: &[u8], so_far: Replayed) -> Replayed {
    let mut fresh = Registers::new();
    let mut frames = [0u32; 2048];
    let mut titles = [0u32; 384];
    let mut player = Player {
        disc,
        gpr: &mut fresh.gpr,
        psr: &mut fresh.psr,
        frames: &mut frames,
        titles: &mut titles,
    };
    player.call_all(input, so_far)
}

// A case: the place of its disc, and its calls.
fn replay(input: &[u8], so_far: Replayed) -> Replayed {
    let at = number(input, so_far.next, 0);
    let indexed = half(input, at, 0);
    let from = word::add(at, 4);
    let index = replay_list::part(input, from, indexed);
    let then = word::add(from, indexed);
    let file = replay_list::part(input, then, half(input, at, 2));
    replay_on(Disc { index, file }, input, onward(so_far, 4))
}

fn replay_all(input: &[u8], cases: u32) -> Replayed {
    let mut so_far = Replayed {
        next: number(input, 2, 0),
        wrong: 0,
    };
    for _ in 0..cases {
        so_far = replay(input, so_far);
    }
    so_far
}

fn replay_read<R: Input + Print>(rt: &R, input: &mut [u8]) -> io::Result<()> {
    let got = console::read_full(&mut rt.reader(), input)?;
    let cases = half(input, 0, 0);
    let replayed = replay_all(input, cases);
    replay_list::print(rt, cases, b" cases, ")?;
    replay_list::tell(rt, replayed, got)
}

fn main(rt: HostRuntime) -> io::Result<()> {
    let mut input = [0u8; 400000];
    replay_read(&rt, &mut input)
}
