// index.bdmv: read, resolved, written.
ghost use Rattle.std.specs.Prelude.{◌≡◌};
ghost use Rattle.index_bdmv_write.specs.Rules.{entries};
ghost use Rattle.lent.specs.Rules.{handed, size, measured};
ghost use Rattle.index_calls.specs.Rules.{index_numbers, index_call, entry_numbers, type_numbers, entry_call, lead_numbers, resolve_call, app_of, write_index_call};

use super::hand;
use common::byte_at;
use error::Refusal;
use index_bdmv::{AppInfoBdmv, IndexBdmv, IndexObjectType};
use index_bdmv_write::Entries;

fn index_numbers(version: u32, app: AppInfoBdmv, titles: u16) -> [u32; 6]
    ensures { result ≡ index_numbers version app titles }
{
    [
        version,
        u32::from(app.initial_output_mode_preference),
        u32::from(app.content_exist_flag),
        u32::from(app.video_format),
        u32::from(app.frame_rate),
        u32::from(titles),
    ]
}

// What a file holds.
#[tactic(auto, unfolding(index_calls::specs::Rules::index_call))]
#[unsafe(no_mangle)]
pub extern "C" fn mescjadro_index(index: &[u8], res: &mut [u32]) -> u32
    ensures { handed result res.new ≡ index_call index.now res.old }
{
    if res.len() != 6 {
        return lent::refused(Refusal::BadBuffer);
    }
    match IndexBdmv::parse(index) {
        Err(why) => lent::refused(why),
        Ok(read) => {
            lent::put(
                res,
                &index_numbers(read.version, read.app_info, read.titles),
            );
            0
        }
    }
}

fn entry_numbers(kind: u32, playback: u8, object: u16, name: &[u8]) -> [u32; 8]
    ensures { result ≡ entry_numbers kind playback object name.now }
{
    [
        kind,
        u32::from(playback),
        u32::from(object),
        u32::from(byte_at(name, 0)),
        u32::from(byte_at(name, 1)),
        u32::from(byte_at(name, 2)),
        u32::from(byte_at(name, 3)),
        u32::from(byte_at(name, 4)),
    ]
}

// What stands at an entry.
#[tactic(auto, unfolding(index_calls::specs::Rules::entry_call))]
#[unsafe(no_mangle)]
pub extern "C" fn mescjadro_entry(index: &[u8], entry: u32, res: &mut [u32]) -> u32
    ensures { handed result res.new ≡ entry_call index.now entry res.old }
{
    if res.len() != 8 {
        return lent::refused(Refusal::BadBuffer);
    }
    let name = IndexBdmv::bdjo_file_name(index, entry);
    match IndexBdmv::entry(index, entry) {
        Err(why) => lent::refused(why),
        Ok(None) => {
            lent::put(res, &entry_numbers(0, 0, 0, name));
            0
        }
        Ok(Some(object)) => {
            lent::put(res, &type_numbers(object, name));
            0
        }
    }
}

fn type_numbers(object: IndexObjectType, name: &[u8]) -> [u32; 8]
    ensures { result ≡ type_numbers object name.now }
{
    match object {
        IndexObjectType::Hdmv {
            playback_type,
            movie_object_id_ref,
        } => entry_numbers(1, playback_type, movie_object_id_ref, name),
        IndexObjectType::BdJ { playback_type } => entry_numbers(2, playback_type, 0, name),
    }
}

fn lead_numbers(led: Option<u16>) -> [u32; 2]
    ensures { result ≡ lead_numbers led }
{
    match led {
        Some(object) => [1, u32::from(object)],
        None => [0, 0],
    }
}

// Where an entry leads.
#[tactic(auto, unfolding(index_calls::specs::Rules::resolve_call))]
#[unsafe(no_mangle)]
pub extern "C" fn mescjadro_resolve(index: &[u8], entry: u32, res: &mut [u32]) -> u32
    ensures { handed result res.new ≡ resolve_call index.now entry res.old }
{
    if res.len() != 2 {
        return lent::refused(Refusal::BadBuffer);
    }
    match IndexBdmv::resolve_movie_object(index, entry) {
        Err(why) => lent::refused(why),
        Ok(led) => {
            lent::put(res, &lead_numbers(led));
            0
        }
    }
}

fn app_of(app: &[u8]) -> AppInfoBdmv
    ensures { result ≡ app_of app.now }
{
    AppInfoBdmv {
        initial_output_mode_preference: byte_at(app, 0),
        content_exist_flag: byte_at(app, 1),
        video_format: byte_at(app, 2),
        frame_rate: byte_at(app, 3),
    }
}

// The file of a record.
#[tactic(auto, unfolding(index_calls::specs::Rules::write_index_call))]
#[unsafe(no_mangle)]
pub extern "C" fn mescjadro_write_index(
    version: u32,
    app: &[u8],
    kinds: &[u8],
    playbacks: &[u8],
    objects: &[u16],
    names: &[u8],
    out: &mut [u8],
    count: &mut usize,
) -> u32
    ensures { measured out.new (size result count.new)
        ≡ write_index_call version app.now (entries kinds.now playbacks.now objects.now names.now) out.old count.old }
{
    if app.len() != 4 {
        return lent::refused(Refusal::BadBuffer);
    }
    let given = Entries {
        kinds,
        playbacks,
        objects,
        names,
    };
    hand::hand_length(
        index_bdmv_write::write(version, app_of(app), &given, out),
        count,
    )
}
