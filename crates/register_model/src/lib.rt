// The status registers: their classes, and which of them commands may write (the Rust's register_model.rs).
#![tactic(auto)]

ghost use Rattle.std.specs.Prelude.{◌≡◌};
ghost use Rattle.register_model.specs.Rules.{class_table, class_named, class_at, writable, Counts};

pub const GPR_COUNT: usize = 4096;

pub const PSR_COUNT: usize = 128;

#[derive(Clone, Copy, Debug, PartialEq, Eq)]
pub enum PsrClass {
    PlaybackStatus { read_only: bool },
    PlayerSetting,
    Reserved,
}

// Each status register's class: 0 commands may write it, 1 read-only, 2 a setting, 3 reserved.
// Numbers, since `class_table` is a list of them.
static CLASSES: [u8; 128] = [
    0, 0, 0, 0, 0, 0, 0, 0, 1, 1, 0, 0, 0, 2, 0, 2, 2, 2, 2, 2, 2, 3, 3, 3, 3, 3, 3, 3, 3, 2, 2, 2,
    3, 3, 3, 3, 0, 0, 0, 0, 1, 3, 0, 0, 0, 3, 3, 3, 2, 2, 2, 2, 2, 2, 2, 2, 2, 2, 2, 2, 2, 2, 3, 3,
    3, 3, 3, 3, 3, 3, 3, 3, 3, 3, 3, 3, 3, 3, 3, 3, 3, 3, 3, 3, 3, 3, 3, 3, 3, 3, 3, 3, 3, 3, 3, 3,
    3, 3, 3, 3, 3, 3, 3, 3, 3, 3, 3, 3, 3, 3, 3, 3, 3, 3, 3, 3, 3, 3, 3, 3, 3, 3, 3, 3, 3, 3, 3, 3,
];

// The class table.
pub fn classes() -> &'static [u8; 128]
    ensures { result.now ≡ class_table }
{
    &CLASSES
}

// Whether a command may write a status register.
pub fn may_write(index: u16) -> bool
    ensures { result ≡ writable index }
{
    classes().get(usize::from(index)).copied() == Some(0)
}

fn class_of(number: u8) -> PsrClass
    ensures { result ≡ class_named number }
{
    match number {
        0 => PsrClass::PlaybackStatus { read_only: false },
        1 => PsrClass::PlaybackStatus { read_only: true },
        2 => PsrClass::PlayerSetting,
        _ => PsrClass::Reserved,
    }
}

// The class of a status register; from 128 on there is none.
pub fn psr_class(index: u16) -> Option<PsrClass>
    ensures { result ≡ class_at index }
{
    let number = *classes().get(usize::from(index))?;
    Some(class_of(number))
}

// How many registers each class has: 19 that commands may write, 3 read-only, 24 settings, 82 reserved.
pub fn class_counts()
    ensures { Counts }
{}
