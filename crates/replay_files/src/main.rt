// Replays the files that compare/src/bin/answers_files.rs lists, and prints how many there are and how many differ.
#![tactic(auto)]

ghost use Rattle.std.specs.Prelude.{◌≡◌, ◌≤◌, Ok, length};
ghost use Rattle.movie_object.specs.Rules.{verdict_of};
ghost use Rattle.movie_object.specs.Pieces.{Placed};

use error::Refusal;
use index_bdmv::{AppInfoBdmv, IndexBdmv, IndexObjectType};
use index_bdmv_write::Entries;
use movie_object::{MovieObject, MovieObjects};
use replay_list::{byte, half, number, part, print, same};
use std::io;
use std::io::{Input, Print};

// The listing program takes at most so many bytes.
const LISTED: usize = 65536;

// Where the list goes on, and how many bytes a file or an answer has.
#[derive(Clone, Copy)]
struct Unpacked {
    next: u32,
    size: usize,
}

// A length and its sum.
#[derive(Clone, Copy)]
struct Measured {
    length: u32,
    sum: u32,
}

// Where the next record starts, how many bytes the answers so far have, and how many of them differ.
#[derive(Clone, Copy)]
struct Replayed {
    next: u32,
    answered: u32,
    wrong: u32,
}

// One run: so many bytes of the input, so many times.
fn put_run(input: &[u8], at: u32, length: u32, times: u32, out: &mut [u8], from: usize) -> usize {
    let mut to = from;
    for _ in 0..times {
        to = text::put(out, to, part(input, at, length));
    }
    to
}

fn unpack(input: &[u8], at: u32, out: &mut [u8]) -> Unpacked {
    let mut next = word::add(at, 2);
    let mut size = 0;
    for _ in 0..half(input, at, 0) {
        let times = number(input, next, 0);
        let length = half(input, next, 4);
        size = put_run(input, word::add(next, 6), length, times, out, size);
        next = word::add(next, word::add(6, length));
    }
    Unpacked { next, size }
}

fn put_half(out: &mut [u8], at: usize, value: u16) -> usize {
    text::put(out, at, &value.to_be_bytes())
}

fn put_number(out: &mut [u8], at: usize, value: u32) -> usize {
    text::put(out, at, &value.to_be_bytes())
}

// FNV-1a, from a sum on.
fn sum_from(bytes: &[u8], start: u32) -> u32 {
    bytes.iter().fold(start, |sum, byte| {
        word::wrapping_mul32(word::xor(sum, u32::from(*byte)), 0x0100_0193)
    })
}

fn nothing() -> Measured {
    Measured {
        length: 0,
        sum: 0x811C_9DC5,
    }
}

fn with_more(so_far: Measured, bytes: &[u8]) -> Measured {
    Measured {
        length: word::add(so_far.length, (bytes.len() % 0x1_0000_0000) as u32),
        sum: sum_from(bytes, so_far.sum),
    }
}

fn put_measured(out: &mut [u8], at: usize, measured: Measured) -> usize {
    let a = put_number(out, at, measured.length);
    put_number(out, a, measured.sum)
}

// What a writer made: its length and sum, and whether it is the file.
fn put_made(out: &mut [u8], at: usize, made: &[u8], size: usize, file: &[u8]) -> usize {
    if size <= made.len() {
        let bytes = &made[..size];
        let a = put_measured(out, at, with_more(nothing(), bytes));
        text::put_byte(out, a, u8::from(same(bytes, file)))
    } else {
        at
    }
}

// A writer's answer beside what it wrote.
fn put_answer(
    out: &mut [u8],
    at: usize,
    written: Result<usize, Refusal>,
    made: &[u8],
    file: &[u8],
) -> usize {
    match written {
        Ok(size) => put_made(out, at, made, size, file),
        Err(why) => text::put_byte(out, at, why.number()),
    }
}

fn put_count(counts: &mut [u32], at: usize, count: u32) {
    if at < counts.len() {
        counts[at] = count;
    }
}

fn put_flags(out: &mut [u8], at: usize, object: MovieObject) -> usize {
    let a = text::put_byte(out, at, object.resume_intention_flag);
    let b = text::put_byte(out, a, object.menu_call_mask);
    text::put_byte(out, b, object.title_search_mask)
}

// Flags, numbers of commands and commands of all objects, as the writer takes them, and how long the commands are.
fn gather(file: &[u8], flags: &mut [u8], counts: &mut [u32], commands: &mut [u8]) -> usize
    requires { length file.now ≤ 65536 }
{
    let mut places = [0u32; 16384];
    match movie_object::walk_places(file, &mut places) {
        Ok(()) => gather_at(file, &places, flags, counts, commands),
        Err(_) => 0,
    }
}

fn gather_at(
    file: &[u8],
    places: &[u32],
    flags: &mut [u8],
    counts: &mut [u32],
    commands: &mut [u8],
) -> usize
    requires { (verdict_of file.now ≡ Ok tt) × Placed file.now places.now }
{
    let mut used = 0;
    for n in 0..movie_object::count_of(file) as usize {
        let head = places[n] as usize;
        let object = movie_object::head_at(file, head);
        put_flags(flags, 3 * n, object);
        put_count(counts, n, u32::from(object.commands));
        used = text::put(commands, used, movie_object::part_at(file, head));
    }
    used
}

// The listing program's whole text.
fn list(file: &[u8]) -> Measured {
    let mut room = [0u8; 1638400];
    list_into(file, &mut room)
}

fn list_into(file: &[u8], room: &mut [u8]) -> Measured {
    match movie_object_list::list_all(file, room, 0) {
        Ok(end) if end <= room.len() => with_more(nothing(), &room[..end]),
        _ => nothing(),
    }
}

fn with_counts(so_far: Measured, counts: &[u32]) -> Measured {
    let mut measured = so_far;
    for count in counts {
        let low = (*count % 65536) as u16;
        measured = with_more(measured, &low.to_be_bytes());
    }
    measured
}

fn put_asked_object(out: &mut [u8], from: usize, file: &[u8], n: u32) -> usize {
    let commands = with_more(nothing(), MovieObjects::commands(file, n));
    match MovieObjects::object(file, n) {
        Err(why) => {
            let at = text::put_byte(out, from, why.number());
            put_measured(out, at, commands)
        }
        Ok(object) => {
            let a = text::put_byte(out, from, 0);
            let b = put_flags(out, a, object);
            let c = put_half(out, b, object.commands);
            put_measured(out, c, commands)
        }
    }
}

fn put_asked_objects(out: &mut [u8], from: usize, file: &[u8], input: &[u8], asked: u32) -> usize {
    let mut at = from;
    let mut next = word::add(asked, 2);
    for _ in 0..half(input, asked, 0) {
        at = put_asked_object(out, at, file, number(input, next, 0));
        next = word::add(next, 4);
    }
    at
}

// What the writer takes: the version, and of all objects the flags, the numbers of commands and the commands.
#[derive(Clone, Copy)]
struct Record<'a> {
    version: u32,
    flags: &'a [u8],
    counts: &'a [u32],
    commands: &'a [u8],
}

fn put_written(out: &mut [u8], at: usize, file: &[u8], record: Record) -> usize {
    let mut made = [0u8; 65536];
    let written = movie_object_write::write(
        record.version,
        record.flags,
        record.counts,
        record.commands,
        &mut made,
    );
    put_answer(out, at, written, &made, file)
}

// What was read of all objects, the listing, and the file written again.
fn put_record(out: &mut [u8], at: usize, file: &[u8], record: Record) -> usize {
    let a = put_measured(out, at, with_more(nothing(), record.flags));
    let b = put_measured(out, a, with_counts(nothing(), record.counts));
    let c = put_measured(out, b, list(file));
    put_written(out, c, file, record)
}

// All objects of a file that the listing program takes.
fn put_all(out: &mut [u8], at: usize, file: &[u8], version: u32, count: u16) -> usize
    requires { length file.now ≤ 65536 }
{
    let mut flags = [0u8; 49152];
    let mut counts = [0u32; 16384];
    let mut commands = [0u8; 65536];
    let used = gather(file, &mut flags, &mut counts, &mut commands);
    let n = count as usize;
    if 65536 < used || 16384 < n {
        return at;
    }
    let record = Record {
        version,
        flags: &flags[..3 * n],
        counts: &counts[..n],
        commands: &commands[..used],
    };
    put_record(out, at, file, record)
}

// The answer on an object file that is read, behind its refusals.
fn put_objects(
    out: &mut [u8],
    from: usize,
    file: &[u8],
    objects: MovieObjects,
    input: &[u8],
    asked: u32,
) -> usize {
    let a = put_number(out, from, objects.version);
    let b = put_half(out, a, objects.count);
    let c = put_asked_objects(out, b, file, input, asked);
    if file.len() <= LISTED {
        put_all(out, c, file, objects.version, objects.count)
    } else {
        c
    }
}

// The refusal of the listing program.
fn listing_number(length: usize, number: u8) -> u8 {
    if LISTED < length { 1 } else { number }
}

fn answer_objects(out: &mut [u8], file: &[u8], input: &[u8], asked: u32) -> usize {
    match MovieObjects::parse(file) {
        Err(why) => {
            let number = why.number();
            let at = text::put_byte(out, 0, number);
            text::put_byte(out, at, listing_number(file.len(), number))
        }
        Ok(objects) => {
            let a = text::put_byte(out, 0, 0);
            let b = text::put_byte(out, a, listing_number(file.len(), 0));
            put_objects(out, b, file, objects, input, asked)
        }
    }
}

fn put_info(out: &mut [u8], at: usize, info: AppInfoBdmv) -> usize {
    let a = text::put_byte(out, at, info.initial_output_mode_preference);
    let b = text::put_byte(out, a, info.content_exist_flag);
    let c = text::put_byte(out, b, info.video_format);
    text::put_byte(out, c, info.frame_rate)
}

// What stands at an entry, with its name where it has one.
fn put_said(out: &mut [u8], at: usize, object: IndexObjectType, name: &[u8]) -> usize {
    match object {
        IndexObjectType::Hdmv {
            playback_type,
            movie_object_id_ref,
        } => {
            let a = text::put_byte(out, at, 1);
            let b = text::put_byte(out, a, playback_type);
            put_half(out, b, movie_object_id_ref)
        }
        IndexObjectType::BdJ { playback_type } => {
            let a = text::put_byte(out, at, 2);
            let b = text::put_byte(out, a, playback_type);
            text::put(out, b, name)
        }
    }
}

fn put_entry(out: &mut [u8], at: usize, index: &[u8], entry: u32) -> usize {
    match IndexBdmv::entry(index, entry) {
        Ok(Some(object)) => put_said(out, at, object, IndexBdmv::bdjo_file_name(index, entry)),
        Ok(None) => text::put_byte(out, at, 0),
        Err(why) => text::put_byte(out, at, why.number()),
    }
}

fn put_resolved(out: &mut [u8], at: usize, index: &[u8], entry: u32) -> usize {
    match IndexBdmv::resolve_movie_object(index, entry) {
        Ok(Some(object)) => {
            let a = text::put_byte(out, at, 1);
            put_half(out, a, object)
        }
        Ok(None) => text::put_byte(out, at, 0),
        Err(why) => text::put_byte(out, at, why.number()),
    }
}

fn put_asked_entries(out: &mut [u8], from: usize, index: &[u8], input: &[u8], asked: u32) -> usize {
    let mut at = from;
    let mut next = word::add(asked, 2);
    for _ in 0..half(input, asked, 0) {
        let entry = number(input, next, 0);
        let stands = put_entry(out, at, index, entry);
        at = put_resolved(out, stands, index, entry);
        next = word::add(next, 4);
    }
    at
}

// The number of the k-th entry of a record: first playback, top menu, then the titles.
fn entry_number(k: u32) -> u32 {
    match k {
        0 => index_bdmv::FIRST_PLAYBACK,
        1 => index_bdmv::TOP_MENU,
        _ => k - 1,
    }
}

fn put_id(objects: &mut [u16], at: usize, object: u16) {
    if at < objects.len() {
        objects[at] = object;
    }
}

// Room for the entries of a record as the writer takes them, 302 at most. Only `Drop`: nothing copies it.
#[derive(Drop)]
struct Gathered {
    kinds: [u8; 302],
    playbacks: [u8; 302],
    objects: [u16; 302],
    names: [u8; 1510],
}

// The k-th entry, as the writer takes it.
fn gather_entry(room: &mut Gathered, k: u32, object: IndexObjectType, name: &[u8]) {
    let at = k as usize;
    match object {
        IndexObjectType::Hdmv {
            playback_type,
            movie_object_id_ref,
        } => {
            text::put_byte(&mut room.kinds, at, 1);
            text::put_byte(&mut room.playbacks, at, playback_type);
            put_id(&mut room.objects, at, movie_object_id_ref);
        }
        IndexObjectType::BdJ { playback_type } => {
            text::put_byte(&mut room.kinds, at, 2);
            text::put_byte(&mut room.playbacks, at, playback_type);
            text::put(&mut room.names, 5 * at, name);
        }
    }
}

// All entries of an index that is read; one that the disc lacks stays zero.
fn gather_entries(room: &mut Gathered, index: &[u8], count: u32) {
    for k in 0..count {
        let entry = entry_number(k);
        if let Ok(Some(object)) = IndexBdmv::entry(index, entry) {
            gather_entry(room, k, object, IndexBdmv::bdjo_file_name(index, entry));
        }
    }
}

fn put_written_index(
    out: &mut [u8],
    at: usize,
    index: &[u8],
    version: u32,
    info: AppInfoBdmv,
    titles: u16,
) -> usize
    requires { titles ≤ 300 }
{
    let mut room = Gathered {
        kinds: [0; 302],
        playbacks: [0; 302],
        objects: [0; 302],
        names: [0; 1510],
    };
    let n = titles as usize + 2;
    gather_entries(&mut room, index, titles as u32 + 2);
    let entries = Entries {
        kinds: &room.kinds[..n],
        playbacks: &room.playbacks[..n],
        objects: &room.objects[..n],
        names: &room.names[..5 * n],
    };
    let mut made = [0u8; 3708];
    let written = index_bdmv_write::write(version, info, &entries, &mut made);
    put_answer(out, at, written, &made, index)
}

// The answer on an index file that is read, behind its refusal.
fn put_index(
    out: &mut [u8],
    from: usize,
    file: &[u8],
    index: IndexBdmv,
    input: &[u8],
    asked: u32,
) -> usize {
    let a = put_number(out, from, index.version);
    let b = put_info(out, a, index.app_info);
    let c = put_said(
        out,
        b,
        index.first_playback_title,
        IndexBdmv::bdjo_file_name(file, index_bdmv::FIRST_PLAYBACK),
    );
    let d = put_said(
        out,
        c,
        index.menu_title,
        IndexBdmv::bdjo_file_name(file, index_bdmv::TOP_MENU),
    );
    let e = put_half(out, d, index.titles);
    let f = put_asked_entries(out, e, file, input, asked);
    if index.titles <= 300 {
        put_written_index(out, f, file, index.version, index.app_info, index.titles)
    } else {
        f
    }
}

fn answer_index(out: &mut [u8], file: &[u8], input: &[u8], asked: u32) -> usize {
    match IndexBdmv::parse(file) {
        Err(why) => text::put_byte(out, 0, why.number()),
        Ok(index) => {
            let at = text::put_byte(out, 0, 0);
            put_index(out, at, file, index, input, asked)
        }
    }
}

fn answer(out: &mut [u8], kind: u32, file: &[u8], input: &[u8], asked: u32) -> usize {
    if kind == 0 {
        answer_objects(out, file, input, asked)
    } else {
        answer_index(out, file, input, asked)
    }
}

// Whether two answers of so many bytes agree.
fn agree(ours: &[u8], count: usize, theirs: &[u8], told: usize) -> bool {
    count <= ours.len() && told <= theirs.len() && same(&ours[..count], &theirs[..told])
}

fn replay_file(input: &[u8], kind: u32, file: &[u8], asked: u32) -> Replayed {
    let mut ours = [0u8; 2048];
    let mut theirs = [0u8; 2048];
    let count = answer(&mut ours, kind, file, input, asked);
    let told = word::add(asked, word::add(2, half(input, asked, 0) * 4));
    let unpacked = unpack(input, told, &mut theirs);
    Replayed {
        next: unpacked.next,
        answered: (unpacked.size % 0x1_0000_0000) as u32,
        wrong: u32::from(!agree(&ours, count, &theirs, unpacked.size)),
    }
}

fn replay(input: &[u8], at: u32, file: &mut [u8]) -> Replayed {
    let unpacked = unpack(input, word::add(at, 1), file);
    if unpacked.size <= file.len() {
        replay_file(
            input,
            byte(input, at, 0),
            &file[..unpacked.size],
            unpacked.next,
        )
    } else {
        Replayed {
            next: unpacked.next,
            answered: 0,
            wrong: 1,
        }
    }
}

fn replay_all(input: &[u8], file: &mut [u8]) -> Replayed {
    let mut so_far = Replayed {
        next: 2,
        answered: 0,
        wrong: 0,
    };
    for _ in 0..half(input, 0, 0) {
        let replayed = replay(input, so_far.next, file);
        so_far = Replayed {
            next: replayed.next,
            answered: word::add(so_far.answered, replayed.answered),
            wrong: word::add(so_far.wrong, replayed.wrong),
        };
    }
    so_far
}

// The room is enough for an index of 65,535 titles.
fn replay_with_room(input: &[u8]) -> Replayed {
    let mut file = [0u8; 800000];
    replay_all(input, &mut file)
}

fn replay_read<R: Input + Print>(rt: &R, input: &mut [u8]) -> io::Result<()> {
    let got = console::read_full(&mut rt.reader(), input)?;
    let replayed = replay_with_room(input);
    print(rt, half(input, 0, 0), b" files, ")?;
    print(rt, replayed.answered, b" bytes of answers, ")?;
    let end = replay_list::Replayed {
        next: replayed.next,
        wrong: replayed.wrong,
    };
    replay_list::tell(rt, end, got)
}

fn main(rt: HostRuntime) -> io::Result<()> {
    let mut input = [0u8; 200000];
    replay_read(&rt, &mut input)
}
