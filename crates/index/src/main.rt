// Prints what an index.bdmv holds: its version, its AppInfo, and each entry with what it leads to.
#![tactic(auto)]

use console::{Refused, say};
use error::Refusal;
use index_bdmv::{AppInfoBdmv, Index, IndexBdmv, IndexObjectType};
use std::env::Env;
use std::io;
use std::io::{Eprint, Print};
use std::rt::Files;

fn main(rt: HostRuntime) -> io::Result<()> {
    if console::word_count(&rt) != 2 {
        return println!(rt; "usage: index INDEX.BDMV");
    }
    let mut room = [0u8; 1048577];
    with_room(&rt, &mut room)
}

fn with_room<R: Env + Files + Print + Eprint>(rt: &R, room: &mut [u8]) -> io::Result<()> {
    let n = console::read_file(rt, 1, room)?;
    if n < room.len() {
        print_index(rt, &room[..n])?;
    }
    Ok(())
}

fn print_index(rt: &impl Print, file: &[u8]) -> io::Result<()> {
    match Index::read(file) {
        Ok(index) => print_found(rt, &index),
        Err(why) => println!(rt; "{}", Refused(why)),
    }
}

fn print_found(rt: &impl Print, index: &Index) -> io::Result<()> {
    let found = index.record();
    println!(rt; "version 0x{:08x}", found.version)?;
    print_app_info(rt, found.app_info)?;
    print!(rt; "first playback: ")?;
    print_entry(rt, index, index_bdmv::FIRST_PLAYBACK)?;
    print!(rt; "top menu: ")?;
    print_entry(rt, index, index_bdmv::TOP_MENU)?;
    for k in 1..=u32::from(found.titles) {
        print!(rt; "title {k}: ")?;
        print_entry(rt, index, k)?;
    }
    Ok(())
}

fn print_app_info(rt: &impl Print, found: AppInfoBdmv) -> io::Result<()> {
    let AppInfoBdmv {
        initial_output_mode_preference: mode,
        content_exist_flag: content,
        video_format: format,
        frame_rate: rate,
    } = found;
    print!(rt; "initial output mode preference {mode}, content exist flag {content}, ")?;
    println!(rt; "video format {format}, frame rate {rate}")
}

fn print_entry(rt: &impl Print, index: &Index, entry: u32) -> io::Result<()> {
    match index.entry(entry) {
        None => println!(rt; "nothing"),
        Some(
            IndexObjectType::Hdmv {
                playback_type,
                movie_object_id_ref,
            },
        ) => println!(rt; "movie object {movie_object_id_ref}, playback type {playback_type}"),
        Some(IndexObjectType::BdJ { playback_type }) => {
            print!(rt; "BD-J ")?;
            say(rt, index.name(entry))?;
            println!(rt; ", playback type {playback_type}")
        }
    }
}
