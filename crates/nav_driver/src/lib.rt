// The driver: follows jumps and calls between titles, on lent registers and frames (the Rust's nav_driver.rs).
#![tactic(auto)]

ghost use Rattle.std.specs.Prelude.{◌≡◌, ◌≤◌, length};
ghost use Rattle.error.specs.Rules.{first_of};
ghost use Rattle.index_bdmv.specs.Rules.{verdict_of};
ghost use Rattle.movie_object.specs.Rules.{count_of, verdict_of as objects_verdict};
ghost use Rattle.registers.specs.Lent.{held, Same};
ghost use Rattle.vm.specs.Rules.{banks};
ghost use Rattle.nav_driver.specs.Rules.{title_value, playing, asked, follows, seeded, titled, entered, jumped, called, returned, acted, rooms, turn_of, titles_of, bad_number, start_of, go_on_of, begun, start_verdict, verdict_for, answer_of};
ghost use Rattle.nav_driver.specs.Pieces.{Roomy, Opens};

use error::Refusal;
use index_bdmv::Index;
use mobj_runner::RunOutcome;
use movie_object::ObjectTable;
use registers::Banks;
use session::{Budgets, Session, TitleFrame};
use vm::NavRequest;

// A PlayList to play, and where to begin if not at its start.
#[derive(Clone, Copy)]
pub struct PlayRequest {
    pub playlist: u32,
    pub play_item: Option<u32>,
    pub mark: Option<u32>,
}

// Why a run or a resume of the driver returned.
#[derive(Clone, Copy)]
pub enum DriveOutcome {
    Finished,
    Play(PlayRequest),
    Request(NavRequest),
    BadTitle(u32),
    BadObject(u32),
    BudgetExhausted,
    ObjectStackFull,
    TitleStackFull,
}

// What the end of the object side asks for; a yield waits for a resume.
#[derive(Clone, Copy)]
pub enum Follow {
    Return,
    Jump(u32),
    Call(u32),
    Yield(DriveOutcome),
    End(DriveOutcome),
}

// How a title turn ends: with a session to go on from, or with an outcome. The session stands at the same place in both, which no ControlFlow has.
#[derive(Clone, Copy)]
pub enum Turn {
    Go(Session),
    Stop(Session, DriveOutcome),
}

#[derive(Clone, Copy)]
pub struct DriveEnd {
    pub outcome: DriveOutcome,
    pub session: Session,
}

// Where a call of the driver begins: in an entry, or where the session stands.
#[derive(Clone, Copy)]
pub enum Start {
    Entry(u32),
    Here,
}

// A disc whose two files are read. Only `Drop`, since it is lent.
#[derive(Drop)]
pub struct Disc<'a, 'p> {
    pub index: Index<'a>,
    pub objects: ObjectTable<'a, 'p>,
}

impl<'a, 'p> Disc<'a, 'p> {
    // Reads the index, then the object file, whose walk fills the table of places.
    pub fn read(index: &'a [u8], file: &'a [u8], places: &'p mut [u32]) -> Result<Self, Refusal>
        requires { count_of file.now ≤ length places.old }
        ensures { Opens (first_of (verdict_of index.now) (objects_verdict file.now)) index.now file.now result }
    {
        let index = Index::read(index)?;
        let objects = ObjectTable::read(file, places)?;
        Ok(Disc { index, objects })
    }
}

const PSR_TITLE: usize = 4;

const TITLE_VALUE_TOP_MENU: u32 = 65_535;

// What register 4 holds in an entry.
#[tactic(auto, unfolding(crate::specs::Rules::title_value))]
fn title_value(entry: u32) -> u32
    ensures { result ≡ title_value entry }
{
    match entry {
        0..=65_535 => entry,
        Session::FIRST_PLAYBACK => 0,
        _ => TITLE_VALUE_TOP_MENU,
    }
}

fn play(playlist: u32, play_item: Option<u32>, mark: Option<u32>) -> Follow
    ensures { result ≡ playing playlist play_item mark }
{
    Follow::Yield(DriveOutcome::Play(PlayRequest {
        playlist,
        play_item,
        mark,
    }))
}

// The requests that the driver follows itself, and those that it hands on.
fn asked_by(request: NavRequest) -> Follow
    ensures { result ≡ asked request }
{
    match request {
        NavRequest::JumpTitle(title) => Follow::Jump(title),
        NavRequest::CallTitle(title) => Follow::Call(title),
        NavRequest::Resume => Follow::Return,
        NavRequest::PlayPlayList(list) => play(list, None, None),
        NavRequest::PlayPlayListAtPlayItem(list, item) => play(list, Some(item), None),
        NavRequest::PlayPlayListAtMark(list, mark) => play(list, None, Some(mark)),
        _ => Follow::Yield(DriveOutcome::Request(request)),
    }
}

fn what_follows(outcome: RunOutcome) -> Follow
    ensures { result ≡ follows outcome }
{
    match outcome {
        RunOutcome::Finished => Follow::Return,
        RunOutcome::Request(request) => asked_by(request),
        RunOutcome::BadObject(object) => Follow::End(DriveOutcome::BadObject(object)),
        RunOutcome::BudgetExhausted => Follow::End(DriveOutcome::BudgetExhausted),
        RunOutcome::ObjectStackFull => Follow::End(DriveOutcome::ObjectStackFull),
    }
}

// Enters an entry: register 4, then its object, which clears the object frames where it is on the disc.
#[tactic(auto, unfolding(crate::specs::Rules::entered))]
fn enter(psr: &mut [u32], count: u32, s: Session, entry: u32, object: u32) -> Turn
    ensures { seeded result psr.new ≡ entered psr.old count s entry object }
{
    session::put_number(psr, PSR_TITLE, title_value(entry));
    if count <= object {
        return Turn::Stop(Session { entry, ..s }, DriveOutcome::BadObject(object));
    }
    Turn::Go(Session {
        entry,
        object,
        pc: 0,
        odepth: 0,
        ..s
    })
}

#[tactic(auto, unfolding(crate::specs::Rules::jumped))]
fn jump_title(psr: &mut [u32], disc: &Disc, s: Session, to: u32, left: u32) -> Turn
    ensures { seeded result psr.new
        ≡ jumped psr.old disc.now.index (count_of disc.now.objects) s to left }
{
    if left == 0 {
        return Turn::Stop(s, DriveOutcome::BudgetExhausted);
    }
    let title = to % 65536;
    match disc.index.resolve(title) {
        Some(object) => enter(psr, disc.objects.count(), s, title, u32::from(object)),
        None => Turn::Stop(s, DriveOutcome::BadTitle(title)),
    }
}

#[tactic(auto, unfolding(crate::specs::Rules::called))]
fn call_title(
    psr: &mut [u32],
    titles: &mut [u32],
    disc: &Disc,
    s: Session,
    to: u32,
    left: u32,
) -> Turn
    requires { length titles.old ≤ 196610 }
    ensures { titled result psr.new titles.new
        ≡ called psr.old titles.old disc.now.index (count_of disc.now.objects) s to left }
{
    if left == 0 {
        return Turn::Stop(s, DriveOutcome::BudgetExhausted);
    }
    let title = to % 65536;
    let Some(object) = disc.index.resolve(title) else {
        return Turn::Stop(s, DriveOutcome::BadTitle(title));
    };
    if titles.len() / 3 <= s.tdepth as usize {
        return Turn::Stop(s, DriveOutcome::TitleStackFull);
    }
    let frame = TitleFrame {
        entry: s.entry,
        object: s.object,
        pc: s.pc,
    };
    frame.write(titles, s.tdepth);
    let deeper = Session {
        tdepth: s.tdepth + 1,
        ..s
    };
    enter(psr, disc.objects.count(), deeper, title, u32::from(object))
}

// Pops a title frame, or finishes.
#[tactic(auto, unfolding(crate::specs::Rules::returned))]
fn leave_title(psr: &mut [u32], titles: &[u32], s: Session, left: u32) -> Turn
    ensures { seeded result psr.new ≡ returned psr.old titles.now s left }
{
    if s.tdepth == 0 {
        return Turn::Stop(s, DriveOutcome::Finished);
    }
    let tdepth = s.tdepth - 1;
    if left == 0 {
        return Turn::Stop(Session { tdepth, ..s }, DriveOutcome::BudgetExhausted);
    }
    let TitleFrame { entry, object, pc } = TitleFrame::read(titles, tdepth);
    session::put_number(psr, PSR_TITLE, title_value(entry));
    Turn::Go(Session {
        entry,
        object,
        pc,
        tdepth,
        ..s
    })
}

fn act(
    psr: &mut [u32],
    titles: &mut [u32],
    disc: &Disc,
    s: Session,
    next: Follow,
    left: u32,
) -> Turn
    requires { length titles.old ≤ 196610 }
    ensures { titled result psr.new titles.new
        ≡ acted psr.old titles.old disc.now.index (count_of disc.now.objects) s left next }
{
    match next {
        Follow::Return => leave_title(psr, titles, s, left),
        Follow::Jump(to) => jump_title(psr, disc, s, to, left),
        Follow::Call(to) => call_title(psr, titles, disc, s, to, left),
        Follow::Yield(outcome) => Turn::Stop(Session { pending: true, ..s }, outcome),
        Follow::End(outcome) => Turn::Stop(s, outcome),
    }
}

// One title turn: the object side, and what follows its end.
#[tactic(auto, unfolding(crate::specs::Rules::turn_of))]
fn one_turn(
    banks: &mut Banks,
    frames: &mut [u32],
    titles: &mut [u32],
    disc: &Disc,
    s: Session,
    b: Budgets,
    left: u32,
) -> Turn
    requires { Roomy frames.old titles.old }
    ensures same { Same banks.old banks.new }
    ensures drove { rooms result (held banks.new) frames.new titles.new
        ≡ turn_of disc.now.index disc.now.objects b left
        (rooms s (held banks.old) frames.old titles.old) }
{
    let end = mobj_runner::drive(banks, frames, &disc.objects, s, b.steps, b.objects);
    act(
        banks.psr,
        titles,
        disc,
        end.session,
        what_follows(end.outcome),
        left,
    )
}

// Title turn after title turn, until one stops. Each that goes on is charged. No `for`: that one stops in time is what a turn says.
#[tactic(auto, using(crate::specs::Laws::turn_charged, crate::specs::Laws::titles_stop, crate::specs::Laws::titles_go))]
fn drive(
    banks: &mut Banks,
    frames: &mut [u32],
    titles: &mut [u32],
    disc: &Disc,
    s: Session,
    b: Budgets,
) -> DriveEnd
    requires { Roomy frames.old titles.old }
    ensures same { Same banks.old banks.new }
    ensures drove { rooms result (held banks.new) frames.new titles.new
        ≡ titles_of disc.now.index disc.now.objects b b.titles
        (rooms s (held banks.old) frames.old titles.old) }
{
    let mut at = s;
    let mut left = b.titles;
    loop {
        match one_turn(banks, frames, titles, disc, at, b, left) {
            Turn::Go(next) => {
                at = next;
                left -= 1;
            }
            Turn::Stop(session, outcome) => {
                return DriveEnd { outcome, session };
            }
        }
    }
}

// The title that a start which doesn't resolve names.
#[tactic(auto, unfolding(crate::specs::Rules::bad_number))]
fn bad_title(entry: u32) -> u32
    ensures { result ≡ bad_number entry }
{
    if entry < 65536 {
        entry
    } else {
        TITLE_VALUE_TOP_MENU
    }
}

// Starts an entry with no title frame live.
#[tactic(auto, unfolding(crate::specs::Rules::start_of))]
fn start_entry(
    banks: &mut Banks,
    frames: &mut [u32],
    titles: &mut [u32],
    disc: &Disc,
    s: Session,
    entry: u32,
    b: Budgets,
) -> DriveEnd
    requires { Roomy frames.old titles.old }
    ensures same { Same banks.old banks.new }
    ensures drove { rooms result (held banks.new) frames.new titles.new
        ≡ start_of disc.now.index disc.now.objects b entry
        (rooms s (held banks.old) frames.old titles.old) }
{
    let fresh = Session {
        tdepth: 0,
        pending: false,
        ..s
    };
    let Some(object) = disc.index.resolve(entry) else {
        return DriveEnd {
            outcome: DriveOutcome::BadTitle(bad_title(entry)),
            session: fresh,
        };
    };
    match enter(
        banks.psr,
        disc.objects.count(),
        fresh,
        entry,
        u32::from(object),
    ) {
        Turn::Go(next) => drive(banks, frames, titles, disc, next, b),
        Turn::Stop(session, outcome) => DriveEnd { outcome, session },
    }
}

#[tactic(auto, unfolding(crate::specs::Rules::go_on_of))]
fn go_on(
    banks: &mut Banks,
    frames: &mut [u32],
    titles: &mut [u32],
    disc: &Disc,
    s: Session,
    b: Budgets,
) -> DriveEnd
    requires { Roomy frames.old titles.old }
    ensures same { Same banks.old banks.new }
    ensures drove { rooms result (held banks.new) frames.new titles.new
        ≡ go_on_of disc.now.index disc.now.objects b
        (rooms s (held banks.old) frames.old titles.old) }
{
    if s.pending {
        let taken = Session {
            pending: false,
            ..s
        };
        drive(banks, frames, titles, disc, taken, b)
    } else {
        DriveEnd {
            outcome: DriveOutcome::Finished,
            session: s,
        }
    }
}

fn begin(
    banks: &mut Banks,
    frames: &mut [u32],
    titles: &mut [u32],
    disc: &Disc,
    s: Session,
    from: Start,
    b: Budgets,
) -> DriveEnd
    requires { Roomy frames.old titles.old }
    ensures same { Same banks.old banks.new }
    ensures drove { rooms result (held banks.new) frames.new titles.new
        ≡ begun disc.now.index disc.now.objects b
        (rooms s (held banks.old) frames.old titles.old) from }
{
    match from {
        Start::Entry(entry) => { start_entry(banks, frames, titles, disc, s, entry, b) }
        Start::Here => go_on(banks, frames, titles, disc, s, b),
    }
}

fn start_verdict(from: Start) -> Result<(), Refusal>
    ensures { result ≡ start_verdict from }
{
    match from {
        Start::Entry(entry) => session::entry_verdict(entry),
        Start::Here => Ok(()),
    }
}

// Tests what was handed in, in the order of the refusals, and reads the disc.
#[tactic(auto, unfolding(crate::specs::Rules::verdict_for))]
fn opened<'a, 'p>(
    gpr: &[u32],
    psr: &[u32],
    frames: &[u32],
    titles: &[u32],
    index: &'a [u8],
    file: &'a [u8],
    places: &'p mut [u32],
    s: Session,
    from: Start,
    b: Budgets,
) -> Result<Disc<'a, 'p>, Refusal>
    requires { count_of file.now ≤ length places.old }
    ensures { Opens (verdict_for index.now file.now b from (rooms s (banks gpr.now psr.now) frames.now titles.now)) index.now file.now result }
{
    session::buffers_verdict(gpr, psr, frames, titles)?;
    b.verdict()?;
    start_verdict(from)?;
    let disc = Disc::read(index, file, places)?;
    session::session_verdict(frames, titles, disc.objects.count(), s, s.pending)?;
    Ok(disc)
}

#[tactic(auto, using(crate::specs::Laws::opened_rooms), unfolding(crate::specs::Rules::answer_of))]
fn answer(
    gpr: &mut [u32],
    psr: &mut [u32],
    frames: &mut [u32],
    titles: &mut [u32],
    index: &[u8],
    file: &[u8],
    places: &mut [u32],
    s: Session,
    from: Start,
    b: Budgets,
) -> Result<DriveEnd, Refusal>
    requires { count_of file.now ≤ length places.old }
    ensures { rooms result (banks gpr.new psr.new) frames.new titles.new
        ≡ answer_of index.now file.now b from
        (rooms s (banks gpr.old psr.old) frames.old titles.old) }
{
    let disc = opened(gpr, psr, frames, titles, index, file, places, s, from, b)?;
    let mut banks = Banks { gpr, psr };
    Ok(begin(&mut banks, frames, titles, &disc, s, from, b))
}

// Most discs have few objects: a small table of places serves them. It must stand in this frame, so each drive chooses its own.
#[tactic(auto, using(mobj_runner::specs::Laws::count_small))]
fn answer_with_table(
    gpr: &mut [u32],
    psr: &mut [u32],
    frames: &mut [u32],
    titles: &mut [u32],
    index: &[u8],
    file: &[u8],
    s: Session,
    from: Start,
    b: Budgets,
) -> Result<DriveEnd, Refusal>
    ensures { rooms result (banks gpr.new psr.new) frames.new titles.new
        ≡ answer_of index.now file.now b from
        (rooms s (banks gpr.old psr.old) frames.old titles.old) }
{
    if movie_object::object_count(file) <= 1024 {
        let mut few = [0; 1024];
        answer(gpr, psr, frames, titles, index, file, &mut few, s, from, b)
    } else {
        let mut many = [0; 65536];
        answer(gpr, psr, frames, titles, index, file, &mut many, s, from, b)
    }
}

// Starts an entry and drives until the script finishes or asks something of the player.
pub fn run(
    gpr: &mut [u32],
    psr: &mut [u32],
    frames: &mut [u32],
    titles: &mut [u32],
    index: &[u8],
    file: &[u8],
    s: Session,
    entry: u32,
    b: Budgets,
) -> Result<DriveEnd, Refusal>
    ensures { rooms result (banks gpr.new psr.new) frames.new titles.new
        ≡ answer_of index.now file.now b (Start.Entry entry)
        (rooms s (banks gpr.old psr.old) frames.old titles.old) }
{
    answer_with_table(
        gpr,
        psr,
        frames,
        titles,
        index,
        file,
        s,
        Start::Entry(entry),
        b,
    )
}

// Goes on with a drive that waits, after the player has done what was asked.
pub fn resume(
    gpr: &mut [u32],
    psr: &mut [u32],
    frames: &mut [u32],
    titles: &mut [u32],
    index: &[u8],
    file: &[u8],
    s: Session,
    b: Budgets,
) -> Result<DriveEnd, Refusal>
    ensures { rooms result (banks gpr.new psr.new) frames.new titles.new
        ≡ answer_of index.now file.now b Start.Here
        (rooms s (banks gpr.old psr.old) frames.old titles.old) }
{
    answer_with_table(gpr, psr, frames, titles, index, file, s, Start::Here, b)
}
