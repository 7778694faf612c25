// Drives a disc: runs it from an entry, answers every play and request with a resume, and says how each call ended.
#![tactic(auto)]

use console::{Decimal, Refused};
use error::Refusal;
use nav_driver::{DriveEnd, DriveOutcome, PlayRequest};
use numbers::Request;
use registers::Registers;
use session::{Budgets, Session};
use std::env::Env;
use std::io::{Eprint, Print};
use std::rt::Files;
use std::{fmt, io};

// What the command line asks for beside registers.
#[derive(Clone, Copy)]
struct Options {
    entry: u32,
    budgets: Budgets,
    resumes: u32,
}

// One option of the command line.
#[derive(Clone, Copy)]
enum Setting {
    Entry(u32),
    Steps(u32),
    Objects(u32),
    Titles(u32),
    Resumes(u32),
    General(u16, u32),
    Status(u16, u32),
}

// The two files of a disc.
#[derive(Clone, Copy)]
struct Disc<'a> {
    index: &'a [u8],
    file: &'a [u8],
}

// A disc, and the rooms that its drive is lent.
#[derive(Drop)]
struct Player<'a> {
    disc: Disc<'a>,
    gpr: &'a mut [u32],
    psr: &'a mut [u32],
    frames: &'a mut [u32],
    titles: &'a mut [u32],
}

fn main(rt: HostRuntime) -> io::Result<()> {
    if console::word_count(&rt) < 3 {
        return print_usage(&rt);
    }
    let mut index = [0u8; 1048577];
    with_index(&rt, &mut index)
}

fn print_usage(rt: &impl Print) -> io::Result<()> {
    println!(rt; "usage: drive INDEX.BDMV MOVIEOBJECT.BDMV [OPTION..]")?;
    println!(rt; "  entry=N: title N, 65536 first playback (as without it), 65537 top menu")?;
    println!(rt; "  steps=N objects=N titles=N: the budgets, at most 1000000, 100000 and 10000")?;
    println!(rt; "  resumes=N: how many plays and requests are answered, 100 without it")?;
    println!(rt; "  rN=V sets general register N, pN=V status register N")
}

// Room for the files, the registers and the frames: no heap, so each function lends the next what it makes.

fn with_index<R: Env + Files + Print + Eprint>(rt: &R, index: &mut [u8]) -> io::Result<()> {
    let n = console::read_file(rt, 1, index)?;
    if n < index.len() {
        with_index_read(rt, &index[..n])?;
    }
    Ok(())
}

fn with_index_read<R: Env + Files + Print + Eprint>(rt: &R, index: &[u8]) -> io::Result<()> {
    let mut file = [0u8; 1048577];
    with_file(rt, index, &mut file)
}

fn with_file<R: Env + Files + Print + Eprint>(
    rt: &R,
    index: &[u8],
    file: &mut [u8],
) -> io::Result<()> {
    let n = console::read_file(rt, 2, file)?;
    if n < file.len() {
        let file = &file[..n];
        with_disc(rt, Disc { index, file })?;
    }
    Ok(())
}

fn with_disc(rt: &(impl Env + Print), disc: Disc) -> io::Result<()> {
    let mut registers = Registers::new();
    match read_options(rt, &mut registers) {
        Some(options) => with_options(rt, disc, &mut registers, options),
        None => print_usage(rt),
    }
}

fn with_options(
    rt: &impl Print,
    disc: Disc,
    registers: &mut Registers,
    options: Options,
) -> io::Result<()> {
    let mut frames = [0u32; 131072];
    let mut titles = [0u32; 196608];
    let mut player = Player {
        disc,
        gpr: &mut registers.gpr,
        psr: &mut registers.psr,
        frames: &mut frames,
        titles: &mut titles,
    };
    drive(rt, &mut player, options)
}

// The command line.

// The words from the third on; nothing where one of them is no option.
fn read_options(rt: &impl Env, registers: &mut Registers) -> Option<Options> {
    let mut options = Options {
        entry: Session::FIRST_PLAYBACK,
        budgets: Budgets::new(),
        resumes: 100,
    };
    for k in 3..console::word_count(rt) {
        let setting = read_option(rt, k)?;
        options.take(setting, registers);
    }
    Some(options)
}

fn read_option(rt: &impl Env, k: usize) -> Option<Setting> {
    let mut word = [0u8; 64];
    let n = console::read_word(rt, k, &mut word);
    option_of(str::from_utf8(&word[..n]).ok()?)
}

fn option_of(word: &str) -> Option<Setting> {
    let (name, value) = word.split_once('=')?;
    let value = number_from(value.as_bytes(), 0)?;
    match name {
        "entry" => Some(Setting::Entry(value)),
        "steps" => Some(Setting::Steps(value)),
        "objects" => Some(Setting::Objects(value)),
        "titles" => Some(Setting::Titles(value)),
        "resumes" => Some(Setting::Resumes(value)),
        _ => register_option(name.as_bytes(), value),
    }
}

fn register_option(name: &[u8], value: u32) -> Option<Setting> {
    let index = u16::try_from(number_from(name, 1)?).ok()?;
    if console::begins(name, b"r") && index < 4096 {
        Some(Setting::General(index, value))
    } else if console::begins(name, b"p") && index < 128 {
        Some(Setting::Status(index, value))
    } else {
        None
    }
}

// The number that fills a word from a place on.
fn number_from(word: &[u8], at: usize) -> Option<u32> {
    let Decimal { value, end } = console::number_in(word, at);
    if end == word.len() { value } else { None }
}

impl Options {
    // No write is refused: the banks have their sizes.
    fn take(&mut self, setting: Setting, registers: &mut Registers) {
        match setting {
            Setting::Entry(entry) => self.entry = entry,
            Setting::Steps(steps) => self.budgets.steps = steps,
            Setting::Objects(objects) => self.budgets.objects = objects,
            Setting::Titles(titles) => self.budgets.titles = titles,
            Setting::Resumes(resumes) => self.resumes = resumes,
            Setting::General(index, value) => {
                let _ = Registers::set_gpr(&mut registers.gpr, index, value);
            }
            Setting::Status(index, value) => {
                let _ = Registers::set_psr_player(&mut registers.psr, index, value);
            }
        }
    }
}

// The calls.

impl Player<'_> {
    fn run(&mut self, entry: u32, b: Budgets) -> Result<DriveEnd, Refusal> {
        let Disc { index, file } = self.disc;
        nav_driver::run(
            self.gpr,
            self.psr,
            self.frames,
            self.titles,
            index,
            file,
            Session::new(),
            entry,
            b,
        )
    }

    fn resume(&mut self, s: Session, b: Budgets) -> Result<DriveEnd, Refusal> {
        let Disc { index, file } = self.disc;
        nav_driver::resume(
            self.gpr,
            self.psr,
            self.frames,
            self.titles,
            index,
            file,
            s,
            b,
        )
    }
}

fn drive(rt: &impl Print, player: &mut Player, options: Options) -> io::Result<()> {
    print!(rt; "run from {}", Entry(options.entry))?;
    let answer = player.run(options.entry, options.budgets);
    print_answer(rt, answer)?;
    match answer {
        Ok(end) => print_last(rt, resume_all(rt, player, end, options)?),
        Err(why) => print_refused(rt, why, player.disc.index),
    }
}

// Answers every play and request, up to a number of them.
fn resume_all(
    rt: &impl Print,
    player: &mut Player,
    end: DriveEnd,
    options: Options,
) -> io::Result<DriveEnd> {
    let mut last = end;
    for k in 1..=options.resumes {
        if !last.session.pending {
            break;
        }
        print!(rt; "resume {k}")?;
        let answer = player.resume(last.session, options.budgets);
        print_answer(rt, answer)?;
        let Ok(next) = answer else { break };
        last = next;
    }
    Ok(last)
}

// What the calls answer.

// An entry as the program names it.
#[derive(Clone, Copy)]
struct Entry(u32);

impl fmt::Display for Entry {
    fn fmt<W: fmt::Write>(&self, f: &mut fmt::Formatter<W>) -> fmt::Result {
        match self.0 {
            Session::FIRST_PLAYBACK => write!(f, "first playback"),
            Session::TOP_MENU => write!(f, "top menu"),
            title => write!(f, "title {title}"),
        }
    }
}

// One line for a call: its outcome, and the object and pc where it stands.
fn print_answer(rt: &impl Print, answer: Result<DriveEnd, Refusal>) -> io::Result<()> {
    match answer {
        Ok(DriveEnd { outcome, session }) => {
            print!(rt; ": ")?;
            print_outcome(rt, outcome)?;
            println!(rt; " (object {}, pc {})", session.object, session.pc)
        }
        Err(why) => println!(rt; ": {}", Refused(why)),
    }
}

// Refusals 1 to 4 are those of a file.
fn is_of_file(why: Refusal) -> bool {
    matches!(
        why,
        Refusal::TooLong | Refusal::BadHeader | Refusal::BadBody | Refusal::BadEntry
    )
}

// The index file is judged first.
fn print_refused(rt: &impl Print, why: Refusal, index: &[u8]) -> io::Result<()> {
    let file = if !is_of_file(why) {
        ""
    } else if index_bdmv::verdict(index).is_err() {
        ", the index file"
    } else {
        ", the object file"
    };
    println!(rt; "ended: refused{file}")
}

// How the drive ended: its last outcome, and whether it waits for an answer still.
fn print_last(rt: &impl Print, last: DriveEnd) -> io::Result<()> {
    print!(rt; "ended: ")?;
    print_outcome(rt, last.outcome)?;
    if last.session.pending {
        print!(rt; ", and waits for a resume")?;
    }
    println!(rt)
}

fn print_outcome(rt: &impl Print, outcome: DriveOutcome) -> io::Result<()> {
    match outcome {
        DriveOutcome::Finished => print!(rt; "finished"),
        DriveOutcome::Play(play) => print_play(rt, play),
        DriveOutcome::Request(asked) => print_request(rt, numbers::request_of(asked)),
        DriveOutcome::BadTitle(title) => print!(rt; "bad title {title}"),
        DriveOutcome::BadObject(object) => print!(rt; "bad object {object}"),
        DriveOutcome::BudgetExhausted => print!(rt; "budget exhausted"),
        DriveOutcome::ObjectStackFull => print!(rt; "object stack full"),
        DriveOutcome::TitleStackFull => print!(rt; "title stack full"),
    }
}

fn print_play(rt: &impl Print, play: PlayRequest) -> io::Result<()> {
    print!(rt; "play list {}", play.playlist)?;
    if let Some(item) = play.play_item {
        print!(rt; " from item {item}")?;
    }
    if let Some(mark) = play.mark {
        print!(rt; " from mark {mark}")?;
    }
    Ok(())
}

// A request by its name, or by its code where it has none, and its operands.
fn print_request(rt: &impl Print, asked: Request) -> io::Result<()> {
    print!(rt; "request ")?;
    match u8::try_from(asked.op) {
        Ok(number) if number != 0 => print_name(rt, number)?,
        _ => print!(rt; "of code {}", asked.code)?,
    }
    print!(rt; " {}, {}", asked.first, asked.second)
}

fn print_name(rt: &impl Print, number: u8) -> io::Result<()> {
    let mut name = [0u8; 32];
    let end = nav_names::put_mnemonic(&mut name, 0, number);
    console::say_first(rt, end, &name)
}
