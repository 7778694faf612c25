// Writing index.bdmv into a lent buffer (the Rust's `IndexBdmv::encode`).
#![tactic(auto)]

ghost use Rattle.std.specs.Prelude.{Ok, ◌≡◌, ◌+◌, ◌*◌, ◌≤◌, ◌<◌, length, take, drop};
ghost use Rattle.laws.specs.Firsts.{all, blocks};
ghost use Rattle.laws.specs.Over.{over};
ghost use Rattle.common.specs.Rules.{left, left_as};
ghost use Rattle.index_bdmv_write.specs.Rules.{tail_bytes, entry_bytes, entry_of_record, app_bytes, head_bytes, special_bytes, title_bytes, titles_of, size_of, file_of, app_fits, kind_fits, entry_fits, lengths_fit, encodable, write_verdict, write_of, WritingThenReading, ReadingThenWriting};
ghost use Rattle.index_bdmv_write.specs.Laws.{lent, AppFits, Good, Accepted};

use common::{put_bytes, put_zeros, put16, put32, room_verdict};
use error::Refusal;
use index_bdmv::AppInfoBdmv;
use utf8::is_utf8_name;

// First playback, top menu and the titles: of each its type (1 HDMV, 2 BD-J), playback type, object and name of five bytes.
#[derive(Clone, Copy)]
pub struct Entries<'a> {
    pub kinds: &'a [u8],
    pub playbacks: &'a [u8],
    pub objects: &'a [u16],
    pub names: &'a [u8],
}

// The file of a record: version, AppInfo and the entries.
#[tactic(auto, using(crate::specs::Laws::accepted), unfolding(crate::specs::Rules::write_of))]
pub fn write(
    version: u32,
    app: AppInfoBdmv,
    entries: &Entries,
    out: &mut [u8],
) -> Result<usize, Refusal>
    ensures { left out.new result ≡ write_of version app (lent entries.now) out.old }
{
    write_verdict(app, entries, out.len())?;
    Ok(write_file(version, app, entries, out))
}

// Theorem: writing then reading gives the record back, and the file is one that the writer could have made.
pub fn writing_then_reading()
    ensures { WritingThenReading }
{}

// Theorem: reading then writing gives the bytes back, for each file that the writer could have made.
pub fn reading_then_writing()
    ensures { ReadingThenWriting }
{}

// Whether the record is written: 9, 5.
#[tactic(auto, using(crate::specs::Laws::encodable_tells), unfolding(crate::specs::Rules::write_verdict, crate::specs::Rules::size_of, crate::specs::Rules::titles_of))]
fn write_verdict(app: AppInfoBdmv, entries: &Entries, room: usize) -> Result<(), Refusal>
    ensures { result ≡ write_verdict app (lent entries.now) room }
{
    if !is_encodable(app, entries) {
        return Err(Refusal::NotEncodable);
    }
    room_verdict(108 + 12 * (entries.kinds.len() - 2), room)
}

// Whether every field fits its bits.
#[tactic(auto, unfolding(crate::specs::Rules::encodable, crate::specs::Rules::lengths_fit))]
fn is_encodable(app: AppInfoBdmv, entries: &Entries) -> bool
    ensures { result ≡ encodable app (lent entries.now) }
{
    app_fits(app) && lengths_fit(entries) && all_fit(entries)
}

// Whether the AppInfo's four fields fit their bits.
fn app_fits(app: AppInfoBdmv) -> bool
    ensures { result ≡ app_fits app }
{
    app.initial_output_mode_preference < 2
        && app.content_exist_flag < 2
        && app.video_format < 16
        && app.frame_rate < 16
}

// Whether there are two special entries and at most 65,535 titles, with a playback type, an object and a name for each.
#[tactic(auto, unfolding(crate::specs::Rules::lengths_fit))]
fn lengths_fit(entries: &Entries) -> bool
    ensures { result ≡ lengths_fit (length entries.now.kinds.now) (length entries.now.playbacks.now) (length entries.now.objects.now) (length entries.now.names.now) }
{
    let count = entries.kinds.len();
    2 <= count
        && count <= 65537
        && entries.playbacks.len() == count
        && entries.objects.len() == count
        && entries.names.len() == 5 * count
}

// Whether every entry is HDMV, or BD-J with a name that is UTF-8.
#[tactic(auto, using(laws::specs::Firsts::all_none, laws::specs::Firsts::all_more, laws::specs::Firsts::all_not), unfolding(crate::specs::Rules::name_given))]
fn all_fit(entries: &Entries) -> bool
    requires { (length entries.now.kinds.now ≤ 65537) × (length entries.now.playbacks.now ≡ length entries.now.kinds.now) × (length entries.now.names.now ≡ 5 * length entries.now.kinds.now) }
    ensures { result ≡ all (entry_fits entries.now.kinds.now entries.now.playbacks.now entries.now.names.now) (length entries.now.kinds.now) }
{
    for (k, kind) in entries.kinds.iter().enumerate() {
        if !entry_fits(*kind, entries.playbacks[k], entries.names, 5 * k) {
            return false;
        }
    }
    true
}

#[tactic(auto, unfolding(crate::specs::Rules::kind_fits))]
fn entry_fits(kind: u8, playback: u8, names: &[u8], at: usize) -> bool
    requires { at + 5 ≤ length names.now }
    ensures { result ≡ kind_fits kind playback (take 5 (drop at names.now)) }
{
    playback < 4 && (kind == 1 || kind == 2 && is_utf8_name(names, at))
}

// The bytes of an accepted record, and how many they are.
fn write_file(version: u32, app: AppInfoBdmv, entries: &Entries, out: &mut [u8]) -> usize
    requires { Accepted app (lent entries.now) (length out.old) }
    ensures { left out.new (Ok result)
        ≡ left_as (Ok tt) (file_of version app (lent entries.now)) (size_of (lent entries.now)) out.old }
{
    let titles = entries.kinds.len() - 2;
    put_head(out, version, app);
    put_special(out, titles as u16, entries);
    put_titles(out, titles, entries);
    108 + 12 * titles
}

// The 78 bytes before the Indexes.
fn put_head(out: &mut [u8], version: u32, app: AppInfoBdmv)
    requires { (78 ≤ length out.old) × AppFits app }
    ensures { out.new ≡ over out.old 0 (head_bytes version app) }
{
    put32(out, 0, 0x494E4458);
    put32(out, 4, version);
    put32(out, 8, 78);
    put_zeros(out, 12, 28);
    put32(out, 40, 34);
    put_app_info(out, app);
    put_zeros(out, 46, 32);
}

fn put_app_info(out: &mut [u8], app: AppInfoBdmv)
    requires { (46 ≤ length out.old) × AppFits app }
    ensures { out.new ≡ over out.old 44 (app_bytes app) }
{
    out[44] = app.initial_output_mode_preference * 8 + app.content_exist_flag * 4;
    out[45] = app.video_format * 16 + app.frame_rate;
}

// The length of the Indexes, first playback, top menu, and the number of titles.
fn put_special(out: &mut [u8], titles: u16, entries: &Entries)
    requires { (108 ≤ length out.old) × Good (lent entries.now) × (titles ≡ titles_of (lent entries.now)) }
    ensures { out.new ≡ over out.old 78 (special_bytes (lent entries.now)) }
{
    put32(out, 78, 26 + 12 * (titles as u32));
    put_one(out, 82, 0, entries);
    put_one(out, 94, 1, entries);
    put16(out, 106, titles);
}

// The titles.
fn put_titles(out: &mut [u8], titles: usize, entries: &Entries)
    requires { (108 + 12 * titles ≤ length out.old) × Good (lent entries.now) × (titles ≡ titles_of (lent entries.now)) }
    ensures { out.new ≡ over out.old 108 (blocks (title_bytes (lent entries.now)) titles) }
{
    for k in 0..titles {
        put_one(out, 108 + 12 * k, k + 2, entries);
    }
}

// Entry k of a record, at a place.
fn put_one(out: &mut [u8], at: usize, k: usize, entries: &Entries)
    requires { (at + 12 ≤ length out.old) × (k < length entries.now.kinds.now) × Good (lent entries.now) }
    ensures { out.new ≡ over out.old at (entry_of_record (lent entries.now) k) }
{
    put_entry(
        out,
        at,
        entries.kinds[k],
        entries.playbacks[k],
        entries.objects[k],
        &entries.names[5 * k..5 * k + 5],
    );
}

// The twelve bytes of an entry.
fn put_entry(out: &mut [u8], at: usize, kind: u8, playback: u8, object: u16, name: &[u8])
    requires { (at + 12 ≤ length out.old) × (kind < 4) × (playback < 4) × (length name.now ≡ 5) }
    ensures { out.new ≡ over out.old at (entry_bytes kind playback object name.now) }
{
    out[at] = kind * 64;
    out[at + 1] = 0;
    out[at + 2] = playback * 64;
    out[at + 3] = 0;
    put_tail(out, at + 4, kind, object, name);
}

// Its last eight bytes: an object or a name, and zeros.
fn put_tail(out: &mut [u8], at: usize, kind: u8, object: u16, name: &[u8])
    requires { (at + 8 ≤ length out.old) × (length name.now ≡ 5) }
    ensures { out.new ≡ over out.old at (tail_bytes kind object name.now) }
{
    if kind == 1 {
        put16(out, at, object);
        put_zeros(out, at + 2, 6);
    } else {
        put_bytes(out, at, name);
        put_zeros(out, at + 5, 3);
    }
}
