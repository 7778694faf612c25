// The names of operations and of status registers into lent room (the Rust's `mnemonic` and the names of `psr_info`).
#![tactic(auto)]

ghost use Rattle.std.specs.Prelude.{◌≡◌, false, ◌≤◌, ◌<◌};
ghost use Rattle.text.specs.Rules.{Wrote};
ghost use Rattle.register_model.specs.Rules.{class_of};
ghost use Rattle.register_model.specs.Names.{reserved};
ghost use Rattle.nav_names.specs.Rules.{mnemonic, name_text, unnamed};

use register_model::PsrClass;

// Operations by their numbers, a row or a part of one a function, so that proofs stay small; the compiler makes one jump of all.
// No table of texts: which text a place of a table of references lends is not told in its proof.
fn put_still(out: &mut [u8], at: usize, number: u8) -> usize
    requires { 43 ≤ number }
    ensures { Wrote out.old at (mnemonic number) out.new result }
{
    match number {
        43 => text::put(out, at, b"PopUpOff"),
        44 => text::put(out, at, b"StillOn"),
        45 => text::put(out, at, b"StillOff"),
        46 => text::put(out, at, b"SetOutputMode"),
        47 => text::put(out, at, b"SetStreamSS"),
        _ => at,
    }
}

fn put_stream(out: &mut [u8], at: usize, number: u8) -> usize
    requires { 37 ≤ number }
    ensures { Wrote out.old at (mnemonic number) out.new result }
{
    match number {
        37 => text::put(out, at, b"SetStream"),
        38 => text::put(out, at, b"SetNvTimer"),
        39 => text::put(out, at, b"SetButtonPage"),
        40 => text::put(out, at, b"EnableButton"),
        41 => text::put(out, at, b"DisableButton"),
        42 => text::put(out, at, b"SetSecondaryStream"),
        _ => put_still(out, at, number),
    }
}

fn put_bitwise(out: &mut [u8], at: usize, number: u8) -> usize
    requires { 30 ≤ number }
    ensures { Wrote out.old at (mnemonic number) out.new result }
{
    match number {
        30 => text::put(out, at, b"And"),
        31 => text::put(out, at, b"Or"),
        32 => text::put(out, at, b"Xor"),
        33 => text::put(out, at, b"BitSet"),
        34 => text::put(out, at, b"BitClear"),
        35 => text::put(out, at, b"ShiftLeft"),
        36 => text::put(out, at, b"ShiftRight"),
        _ => put_stream(out, at, number),
    }
}

fn put_arithmetic(out: &mut [u8], at: usize, number: u8) -> usize
    requires { 22 ≤ number }
    ensures { Wrote out.old at (mnemonic number) out.new result }
{
    match number {
        22 => text::put(out, at, b"Move"),
        23 => text::put(out, at, b"Swap"),
        24 => text::put(out, at, b"Add"),
        25 => text::put(out, at, b"Sub"),
        26 => text::put(out, at, b"Mul"),
        27 => text::put(out, at, b"Div"),
        28 => text::put(out, at, b"Mod"),
        29 => text::put(out, at, b"Rnd"),
        _ => put_bitwise(out, at, number),
    }
}

fn put_compare(out: &mut [u8], at: usize, number: u8) -> usize
    requires { 15 ≤ number }
    ensures { Wrote out.old at (mnemonic number) out.new result }
{
    match number {
        15 => text::put(out, at, b"Bc"),
        16 => text::put(out, at, b"Eq"),
        17 => text::put(out, at, b"Ne"),
        18 => text::put(out, at, b"Ge"),
        19 => text::put(out, at, b"Gt"),
        20 => text::put(out, at, b"Le"),
        21 => text::put(out, at, b"Lt"),
        _ => put_arithmetic(out, at, number),
    }
}

fn put_play(out: &mut [u8], at: usize, number: u8) -> usize
    requires { 9 ≤ number }
    ensures { Wrote out.old at (mnemonic number) out.new result }
{
    match number {
        9 => text::put(out, at, b"PlayPL"),
        10 => text::put(out, at, b"PlayPLatPlayItem"),
        11 => text::put(out, at, b"PlayPLatMark"),
        12 => text::put(out, at, b"TerminatePL"),
        13 => text::put(out, at, b"LinkPI"),
        14 => text::put(out, at, b"LinkMK"),
        _ => put_compare(out, at, number),
    }
}

fn put_jump(out: &mut [u8], at: usize, number: u8) -> usize
    requires { 4 ≤ number }
    ensures { Wrote out.old at (mnemonic number) out.new result }
{
    match number {
        4 => text::put(out, at, b"JumpObject"),
        5 => text::put(out, at, b"JumpTitle"),
        6 => text::put(out, at, b"CallObject"),
        7 => text::put(out, at, b"CallTitle"),
        8 => text::put(out, at, b"Resume"),
        _ => put_play(out, at, number),
    }
}

fn put_goto(out: &mut [u8], at: usize, number: u8) -> usize
    requires { 1 ≤ number }
    ensures { Wrote out.old at (mnemonic number) out.new result }
{
    match number {
        1 => text::put(out, at, b"Nop"),
        2 => text::put(out, at, b"GoTo"),
        3 => text::put(out, at, b"Break"),
        _ => put_jump(out, at, number),
    }
}

// The name of an operation, if its number is on the sheet. A match: over a table of texts the proof didn't close.
pub fn put_mnemonic(out: &mut [u8], at: usize, number: u8) -> usize
    ensures { Wrote out.old at (mnemonic number) out.new result }
{
    if number == 0 {
        at
    } else {
        put_goto(out, at, number)
    }
}

// Status registers that are not reserved, in the same way; from 48 on they share a name.
fn put_backup(out: &mut [u8], at: usize, index: u16) -> usize
    requires { (32 ≤ index) × (index < 128) × (reserved (class_of index) ≡ false) }
    ensures { Wrote out.old at (name_text index) out.new result }
{
    match index {
        36 => text::put(out, at, b"(BackupTitle)"),
        37 => text::put(out, at, b"(BackupChapter)"),
        38 => text::put(out, at, b"(BackupPlayList)"),
        39 => text::put(out, at, b"(BackupPlayItem)"),
        40 => text::put(out, at, b"(BackupPresentationTime)"),
        42 => text::put(out, at, b"(BackupSelectedButton)"),
        43 => text::put(out, at, b"(BackupMenuPage)"),
        44 => text::put(out, at, b"(BackupSelectedStyle)"),
        _ => text::put(out, at, b"(CharacteristicTextCapability)"),
    }
}

fn put_setting(out: &mut [u8], at: usize, index: u16) -> usize
    requires { (16 ≤ index) × (index < 128) × (reserved (class_of index) ≡ false) }
    ensures { Wrote out.old at (name_text index) out.new result }
{
    match index {
        16 => text::put(out, at, b"(AudioLanguage)"),
        17 => text::put(out, at, b"(PGTSLanguage)"),
        18 => text::put(out, at, b"(MenuLanguage)"),
        19 => text::put(out, at, b"(Country)"),
        20 => text::put(out, at, b"(Region)"),
        29 => text::put(out, at, b"(VideoCapability)"),
        30 => text::put(out, at, b"(TextCapability)"),
        31 => text::put(out, at, b"(PlayerProfileVersion)"),
        _ => put_backup(out, at, index),
    }
}

fn put_menu(out: &mut [u8], at: usize, index: u16) -> usize
    requires { (8 ≤ index) × (index < 128) × (reserved (class_of index) ≡ false) }
    ensures { Wrote out.old at (name_text index) out.new result }
{
    match index {
        8 => text::put(out, at, b"(PresentationTime)"),
        9 => text::put(out, at, b"(Timer)"),
        10 => text::put(out, at, b"(SelectedButton)"),
        11 => text::put(out, at, b"(MenuPage)"),
        12 => text::put(out, at, b"(SelectedStyle)"),
        13 => text::put(out, at, b"(Parental)"),
        14 => text::put(out, at, b"(SecondaryAudioVideo)"),
        15 => text::put(out, at, b"(AudioCapability)"),
        _ => put_setting(out, at, index),
    }
}

fn put_playback(out: &mut [u8], at: usize, index: u16) -> usize
    requires { (0 ≤ index) × (index < 128) × (reserved (class_of index) ≡ false) }
    ensures { Wrote out.old at (name_text index) out.new result }
{
    match index {
        0 => text::put(out, at, b"(InteractiveGraphics)"),
        1 => text::put(out, at, b"(PrimaryAudio)"),
        2 => text::put(out, at, b"(PGPiPPGTextST)"),
        3 => text::put(out, at, b"(Angle)"),
        4 => text::put(out, at, b"(Title)"),
        5 => text::put(out, at, b"(Chapter)"),
        6 => text::put(out, at, b"(PlayList)"),
        7 => text::put(out, at, b"(PlayItem)"),
        _ => put_menu(out, at, index),
    }
}

// Whether registers of a class have names; a register that there is none of has none.
fn is_reserved(class: Option<PsrClass>) -> bool
    ensures { result ≡ unnamed class }
{
    match class {
        None | Some(PsrClass::Reserved) => true,
        Some(_) => false,
    }
}

// The name of a status register, if it has one: its class decides.
#[tactic(auto, using(crate::proofs::Laws::class_told, crate::proofs::Laws::no_name, crate::proofs::Laws::named_below, text::specs::Laws::nothing))]
pub fn put_name(out: &mut [u8], at: usize, index: u16) -> usize
    ensures { Wrote out.old at (name_text index) out.new result }
{
    if is_reserved(register_model::psr_class(index)) {
        at
    } else {
        put_playback(out, at, index)
    }
}
