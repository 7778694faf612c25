// index.bdmv: which files are read, what an entry says, and which object it leads to (the Rust's index_bdmv.rs).
#![tactic(auto)]

ghost use Rattle.std.specs.Prelude.{List, ℕ, OnOk, ◌≡◌, ◌+◌, ◌*◌, ◌^◌, ◌≤◌, ◌<◌, length, Ok};
ghost use Rattle.error.specs.Rules.{first_of, given};
ghost use Rattle.index_bdmv.specs.Rules.{app_info_verdict, app_info_of, entry_verdict, entries_verdict, start_of, stated_verdict, indexes_verdict, verdict_of, title_count, lead_at, resolve_of, object_at, index_of, parse_of, is_entry, entry_from, place_of, entry_of, name_from, name_of, resolve_movie_object};
ghost use Rattle.index_bdmv.specs.Laws.{Opened};

use common::{Reader, be16, be32, header};
use error::Refusal;
use std::marker::Model;
use utf8::is_utf8_name;

// The letters INDX.
const INDX: u32 = 0x494E4458;

// The two entries that are no titles.
pub const FIRST_PLAYBACK: u32 = 65536;

pub const TOP_MENU: u32 = 65537;

#[derive(Clone, Copy, Debug, PartialEq, Eq)]
pub struct AppInfoBdmv {
    pub initial_output_mode_preference: u8,
    pub content_exist_flag: u8,
    pub video_format: u8,
    pub frame_rate: u8,
}

// What an entry says; the five bytes of a BD-J name are asked for by `bdjo_file_name`.
#[derive(Clone, Copy, Debug, PartialEq, Eq)]
pub enum IndexObjectType {
    Hdmv {
        playback_type: u8,
        movie_object_id_ref: u16,
    },
    BdJ {
        playback_type: u8,
    },
}

// What a file holds beside its titles.
#[derive(Clone, Copy, Debug, PartialEq, Eq)]
pub struct IndexBdmv {
    pub version: u32,
    pub app_info: AppInfoBdmv,
    pub first_playback_title: IndexObjectType,
    pub menu_title: IndexObjectType,
    pub titles: u16,
}

impl IndexBdmv {
    // The version, the AppInfo, the two special entries and the number of titles.
    #[tactic(auto, unfolding(crate::specs::Rules::parse_of))]
    pub fn parse(index: &[u8]) -> Result<IndexBdmv, Refusal>
        ensures { result ≡ parse_of index.now }
    {
        Ok(Index::read(index)?.record())
    }

    // What entry 1..65,535 (a title), 65,536 (first playback) or 65,537 (top menu) says; nothing where the disc lacks it.
    #[tactic(auto, unfolding(crate::specs::Rules::entry_of))]
    pub fn entry(index: &[u8], entry: u32) -> Result<Option<IndexObjectType>, Refusal>
        ensures { result ≡ entry_of index.now entry }
    {
        Ok(asked(index, entry)?.entry(entry))
    }

    // The five bytes of a BD-J entry's name, a part of the file; else nothing.
    #[tactic(auto, unfolding(crate::specs::Rules::name_of))]
    pub fn bdjo_file_name(index: &[u8], entry: u32) -> &[u8]
        ensures { result.now ≡ name_of index.now entry }
    {
        match asked(index, entry) {
            Ok(found) => found.name(entry),
            Err(_) => &index[..0],
        }
    }

    // The object that an entry leads to, if it leads to one.
    #[tactic(auto, unfolding(crate::specs::Rules::resolve_movie_object))]
    pub fn resolve_movie_object(index: &[u8], entry: u32) -> Result<Option<u16>, Refusal>
        ensures { result ≡ resolve_movie_object index.now entry }
    {
        Ok(asked(index, entry)?.resolve(entry))
    }
}

// Whether the file is read.
#[tactic(auto, using(crate::specs::Laws::app_in), unfolding(crate::specs::Rules::verdict_of))]
pub fn verdict(index: &[u8]) -> Result<(), Refusal>
    ensures { result ≡ verdict_of index.now }
{
    header(index, INDX)?;
    app_info_verdict(index)?;
    indexes_verdict(index)
}

// Whether the AppInfo has its two bytes and ends within the file.
#[tactic(auto, unfolding(crate::specs::Rules::app_info_verdict))]
fn app_info_verdict(index: &[u8]) -> Result<(), Refusal>
    ensures { result ≡ app_info_verdict index.now }
{
    let mut r = Reader::new(index);
    r.seek(40)?;
    let length = r.read_u32()?;
    if length < 2 {
        return Err(Refusal::BadBody);
    }
    r.skip(length as usize)
}

// Whether the Indexes, which start where bytes 8..11 say, end within the file and their entries are good.
#[tactic(auto, unfolding(crate::specs::Rules::indexes_verdict, crate::specs::Rules::titles_verdict))]
fn indexes_verdict(index: &[u8]) -> Result<(), Refusal>
    requires { 40 ≤ length index.now }
    ensures { result ≡ indexes_verdict index.now (start_of index.now) }
{
    let mut r = open_indexes(index)?;
    parse_objects(&mut r, 2)?;
    let titles = r.read_u16()?;
    parse_objects(&mut r, titles)
}

// Past the length of the Indexes, whose stated end lies within the file.
#[tactic(auto, unfolding(crate::specs::Rules::stated_verdict, crate::specs::Rules::start_of))]
fn open_indexes(index: &[u8]) -> Result<Reader, Refusal>
    requires { 40 ≤ length index.now }
    ensures { Opened index.now result }
{
    let mut r = Reader::new(index);
    r.seek(8)?;
    let start = r.read_u32()?;
    r.seek(start as usize)?;
    let length = r.read_u32()?;
    let mut end = r;
    end.skip(length as usize)?;
    Ok(r)
}

// Past n entries, or the first refusal among them.
#[tactic(auto, using(crate::specs::Laws::entries_none, crate::specs::Laws::entries_more, crate::specs::Laws::entries_refused))]
fn parse_objects(r: &mut Reader, n: u16) -> Result<(), Refusal>
    ensures same { r.new.buf ≡ r.old.buf }
    ensures read { result ≡ entries_verdict r.old.buf.now r.old.pos n }
    ensures moved { OnOk result (r.new.pos ≡ r.old.pos + 12 * n) }
{
    for _k in 0..n {
        parse_object(r)?;
    }
    Ok(())
}

// Past one entry; all of its twelve bytes are read before they are judged.
#[tactic(auto, unfolding(crate::specs::Rules::entry_verdict))]
fn parse_object(r: &mut Reader) -> Result<(), Refusal>
    ensures same { r.new.buf ≡ r.old.buf }
    ensures read { result ≡ entry_verdict r.old.buf.now r.old.pos }
    ensures moved { OnOk result (r.new.pos ≡ r.old.pos + 12) }
{
    let at = r.pos;
    let kind = r.read_u8()? / 64;
    r.skip(11)?;
    if kind == 1 || kind == 2 && is_utf8_name(r.buf, at + 4) {
        Ok(())
    } else {
        Err(Refusal::BadEntry)
    }
}

// An index that is read; clauses see its bytes. Only `Drop`, since it is lent.
#[derive(Drop)]
pub struct Index<'a> {
    file: &'a [u8],
}

impl<'a> Model for Index<'a> {
    ghost Value = { List ℕ };

    ghost view = { λ s. s.file.now };

    ghost invariant = { λ s. verdict_of s.file.now ≡ Ok tt };
}

impl<'a> Index<'a> {
    pub fn read(file: &'a [u8]) -> Result<Self, Refusal>
        ensures { result ≡ given (verdict_of file.now) file.now }
    {
        verdict(file)?;
        Ok(Index::of(file))
    }

    // A file that was judged already.
    pub fn of(file: &'a [u8]) -> Self
        requires { verdict_of file.now ≡ Ok tt }
        ensures { result ≡ file.now }
    {
        Index { file }
    }

    // The object that an entry leads to; first playback, top menu and titles alike.
    #[tactic(auto, using(crate::specs::Laws::place_in), unfolding(crate::specs::Rules::resolve_of))]
    pub fn resolve(&self, entry: u32) -> Option<u16>
        ensures { result ≡ resolve_of self.now entry }
    {
        let at = self.place(entry)?;
        lead_at(self.file, at)
    }

    // What an entry says.
    #[tactic(auto, using(crate::specs::Laws::place_in))]
    pub fn entry(&self, entry: u32) -> Option<IndexObjectType>
        ensures { result ≡ entry_from self.now (place_of self.now entry) }
    {
        let at = self.place(entry)?;
        Some(object_at(self.file, at))
    }

    // The five bytes of a BD-J entry's name, a part of the file; else nothing.
    #[tactic(auto, using(crate::specs::Laws::place_in))]
    pub fn name(&self, entry: u32) -> &'a [u8]
        ensures { result.now ≡ name_from self.now (place_of self.now entry) }
    {
        match self.place(entry) {
            Some(at) if self.file[at] / 64 == 2 => &self.file[at + 4..at + 9],
            _ => &self.file[..0],
        }
    }

    // What the file holds beside its titles.
    #[tactic(auto, using(crate::specs::Laws::long, crate::specs::Laws::number_in), unfolding(crate::specs::Rules::index_of))]
    pub fn record(&self) -> IndexBdmv
        ensures { result ≡ index_of self.now }
    {
        let start = self.start();
        IndexBdmv {
            version: be32(self.file, 4),
            app_info: app_info_of(self.file[44], self.file[45]),
            first_playback_title: object_at(self.file, start + 4),
            menu_title: object_at(self.file, start + 16),
            titles: self.title_count(),
        }
    }

    // Where the Indexes start.
    #[tactic(auto, using(crate::specs::Laws::long), unfolding(crate::specs::Rules::start_of))]
    fn start(&self) -> usize
        ensures { (result ≡ start_of self.now) × (result < 2 ^ 32) }
    {
        be32(self.file, 8) as usize
    }

    #[tactic(auto, using(crate::specs::Laws::number_in), unfolding(crate::specs::Rules::title_count))]
    fn title_count(&self) -> u16
        ensures { result ≡ title_count self.now }
    {
        be16(self.file, self.start() + 28)
    }

    // Where an entry's twelve bytes stand.
    #[tactic(auto, using(crate::specs::Laws::number_in), unfolding(crate::specs::Rules::place_of))]
    fn place(&self, entry: u32) -> Option<usize>
        ensures { result ≡ place_of self.now entry }
    {
        let start = self.start();
        match entry {
            FIRST_PLAYBACK => Some(start + 4),
            TOP_MENU => Some(start + 16),
            0 => None,
            _ if entry <= u32::from(self.title_count()) => {
                Some(start + 18 + 12 * (entry as usize))
            }
            _ => None,
        }
    }
}

// An HDMV entry leads to its object.
fn lead_at(index: &[u8], at: usize) -> Option<u16>
    requires { at + 12 ≤ length index.now }
    ensures { result ≡ lead_at index.now at }
{
    if index[at] / 64 == 1 {
        Some(be16(index, at + 4))
    } else {
        None
    }
}

// The index, if it is read and the number is an entry's.
fn asked(index: &[u8], entry: u32) -> Result<Index, Refusal>
    ensures { result ≡ given (first_of (verdict_of index.now) (is_entry entry)) index.now }
{
    error::first_of(verdict(index), is_entry(entry))?;
    Ok(Index::of(index))
}

fn is_entry(entry: u32) -> Result<(), Refusal>
    ensures { result ≡ is_entry entry }
{
    Refusal::NotAnEntry.refused_if(TOP_MENU < entry)
}

// The four fields of the AppInfo's two bytes.
#[tactic(auto, unfolding(crate::specs::Rules::app_info_of))]
fn app_info_of(a: u8, b: u8) -> AppInfoBdmv
    ensures { result ≡ app_info_of a b }
{
    AppInfoBdmv {
        initial_output_mode_preference: a / 8 % 2,
        content_exist_flag: a / 4 % 2,
        video_format: b / 16,
        frame_rate: b % 16,
    }
}

#[tactic(auto, unfolding(crate::specs::Rules::object_at))]
fn object_at(index: &[u8], at: usize) -> IndexObjectType
    requires { at + 12 ≤ length index.now }
    ensures { result ≡ object_at index.now at }
{
    let playback_type = index[at + 2] / 64;
    if index[at] / 64 == 1 {
        IndexObjectType::Hdmv {
            playback_type,
            movie_object_id_ref: be16(index, at + 4),
        }
    } else {
        IndexObjectType::BdJ { playback_type }
    }
}
