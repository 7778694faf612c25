// What a drive is handed and hands back: the session, its budgets and its lent frames; no module of the Rust has it alone.
#![tactic(auto)]

ghost use Rattle.std.specs.Prelude.{◌≡◌, ℕ, ◌+◌, ◌*◌, ◌<◌, ◌≤◌, get_or, set};
ghost use Rattle.std.proofs.lemmas.List.Edits.{sets};
ghost use Rattle.session.specs.Rules.{fresh, defaults, object_frame, pushed_object, title_frame, pushed_title, buffers_verdict, budgets_verdict, entry_verdict, objects_live, titles_live, live_verdict, session_verdict};

use common::number_at;
use error::Refusal;

// Where a drive stands: its entry, object and pc, how many frames of each kind are live, and whether it waits for a resume.
#[derive(Clone, Copy)]
pub struct Session {
    pub entry: u32,
    pub object: u32,
    pub pc: u32,
    pub odepth: u32,
    pub tdepth: u32,
    pub pending: bool,
}

impl Session {
    pub const FIRST_PLAYBACK: u32 = 65_536;

    pub const TOP_MENU: u32 = 65_537;

    pub fn new() -> Self
        ensures { result ≡ fresh }
    {
        Self {
            entry: Self::FIRST_PLAYBACK,
            object: 0,
            pc: 0,
            odepth: 0,
            tdepth: 0,
            pending: false,
        }
    }
}

// How many steps each object, object transitions each title and title transitions each call may take.
#[derive(Clone, Copy)]
pub struct Budgets {
    pub steps: u32,
    pub objects: u32,
    pub titles: u32,
}

impl Budgets {
    pub const STEPS: u32 = 1_000_000;

    pub const OBJECTS: u32 = 100_000;

    pub const TITLES: u32 = 10_000;

    // The upper ends, which are the Rust's defaults.
    pub fn new() -> Self
        ensures { result ≡ defaults }
    {
        Self {
            steps: Self::STEPS,
            objects: Self::OBJECTS,
            titles: Self::TITLES,
        }
    }

    #[tactic(auto, using(std::proofs::lemmas::Bool::Decides::nat_tests), unfolding(crate::specs::Rules::budgets_verdict))]
    pub fn verdict(self) -> Result<(), Refusal>
        ensures { result ≡ budgets_verdict self }
    {
        let over = (Self::STEPS < self.steps)
            | (Self::OBJECTS < self.objects)
            | (Self::TITLES < self.titles);
        Refusal::BadBudget.refused_if(over)
    }
}

// Stores a number in a frame room; past its end nothing changes.
pub fn put_number(room: &mut [u32], at: usize, number: u32)
    ensures { room.new ≡ set room.old at number }
{
    if at < room.len() {
        room[at] = number;
    }
}

// The N numbers of the frame at a depth of a room.
fn frame_at<const N: usize>(room: &[u32], depth: u32) -> [u32; N]
    requires { N ≤ 3 }
    ensures { (k : ℕ) → k < N → get_or result k 0 ≡ get_or room.now (depth * N + k) 0 }
{
    let at = depth as usize * N;
    let mut numbers = [0; N];
    for (i, number) in numbers.iter_mut().enumerate() {
        *number = number_at(room, at + i);
    }
    numbers
}

// Stores the N numbers of a frame at a depth of a room.
fn put_frame<const N: usize>(room: &mut [u32], depth: u32, numbers: &[u32; N])
    requires { N ≤ 3 }
    ensures { room.new ≡ sets room.old (depth * N) numbers.now }
{
    let at = depth as usize * N;
    for (i, number) in numbers.iter().enumerate() {
        put_number(room, at + i, *number);
    }
}

// Where an object that made a call goes on: two numbers of the object frames' room.
#[derive(Clone, Copy)]
pub struct ObjectFrame {
    pub object: u32,
    pub pc: u32,
}

impl ObjectFrame {
    // The frame at a depth.
    pub fn read(frames: &[u32], depth: u32) -> Self
        ensures { result ≡ object_frame frames.now depth }
    {
        let [object, pc] = frame_at::<2>(frames, depth);
        Self { object, pc }
    }

    pub fn write(self, frames: &mut [u32], depth: u32)
        ensures { frames.new ≡ pushed_object frames.old depth self }
    {
        put_frame(frames, depth, &[self.object, self.pc]);
    }
}

// Where a title that made a call goes on: three numbers of the title frames' room.
#[derive(Clone, Copy)]
pub struct TitleFrame {
    pub entry: u32,
    pub object: u32,
    pub pc: u32,
}

impl TitleFrame {
    // The frame at a depth.
    pub fn read(titles: &[u32], depth: u32) -> Self
        ensures { result ≡ title_frame titles.now depth }
    {
        let [entry, object, pc] = frame_at::<3>(titles, depth);
        Self { entry, object, pc }
    }

    pub fn write(self, titles: &mut [u32], depth: u32)
        ensures { titles.new ≡ pushed_title titles.old depth self }
    {
        put_frame(titles, depth, &[self.entry, self.object, self.pc]);
    }
}

// Refusal 6: banks that are not 4,096 and 128 numbers, or room for more than 65,536 frames.
#[tactic(auto, using(std::proofs::lemmas::Bool::Decides::nat_tests), unfolding(crate::specs::Rules::buffers_verdict))]
pub fn buffers_verdict(
    gpr: &[u32],
    psr: &[u32],
    frames: &[u32],
    titles: &[u32],
) -> Result<(), Refusal>
    ensures { result ≡ buffers_verdict gpr.now psr.now frames.now titles.now }
{
    let banks = (gpr.len() != 4096) | (psr.len() != 128);
    let rooms = (65_536 < frames.len() / 2) | (65_536 < titles.len() / 3);
    Refusal::BadBuffer.refused_if(banks | rooms)
}

// Refusal 10: an entry over 65,537.
#[tactic(auto, using(std::proofs::lemmas::Bool::Decides::nat_tests), unfolding(crate::specs::Rules::entry_verdict))]
pub fn entry_verdict(entry: u32) -> Result<(), Refusal>
    ensures { result ≡ entry_verdict entry }
{
    Refusal::NotAnEntry.refused_if(Session::TOP_MENU < entry)
}

// Whether the object of each of so many object frames, from the last one down, is on a disc of `count` objects.
fn objects_live(frames: &[u32], depth: u32, count: u32) -> bool
    ensures { result ≡ objects_live frames.now count depth }
{
    for at in (0..depth).rev() {
        if count <= ObjectFrame::read(frames, at).object {
            return false;
        }
    }
    true
}

// Whether each of so many title frames, from the last one down, has an entry, and an object on a disc of `count` objects.
fn titles_live(titles: &[u32], depth: u32, count: u32) -> bool
    ensures { result ≡ titles_live titles.now count depth }
{
    for at in (0..depth).rev() {
        let frame = TitleFrame::read(titles, at);
        let bad = (Session::TOP_MENU < frame.entry) | (count <= frame.object);
        if bad {
            return false;
        }
    }
    true
}

// Refusal 8: a bad session, on a disc of `count` objects, that waits for a resume or not.
#[tactic(auto, using(std::proofs::lemmas::Bool::Decides::nat_tests), unfolding(crate::specs::Rules::session_verdict))]
pub fn session_verdict(
    frames: &[u32],
    titles: &[u32],
    count: u32,
    session: Session,
    waits: bool,
) -> Result<(), Refusal>
    ensures { result ≡ session_verdict frames.now titles.now count session waits }
{
    let rooms = (frames.len() / 2 < session.odepth as usize)
        | (titles.len() / 3 < session.tdepth as usize);
    if rooms | (Session::TOP_MENU < session.entry) {
        Err(Refusal::BadSession)
    } else if waits {
        live_verdict(frames, titles, count, session)
    } else {
        Ok(())
    }
}

// What a session that waits must hold besides: only objects of the disc, and only entries.
#[tactic(auto, using(std::proofs::lemmas::Bool::Decides::nat_tests), unfolding(crate::specs::Rules::live_verdict))]
fn live_verdict(frames: &[u32], titles: &[u32], count: u32, session: Session) -> Result<(), Refusal>
    ensures { result ≡ live_verdict frames.now titles.now count session }
{
    let live = session.object < count
        && objects_live(frames, session.odepth, count)
        && titles_live(titles, session.tdepth, count);
    Refusal::BadSession.refused_if(!live)
}
