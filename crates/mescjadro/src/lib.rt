// The interface for C: every public call of the layers, in the numbers of the crates `nav_numbers` and `numbers` (include/mescjadro.h).
#![tactic(auto)]

mod command;
mod drive;
mod hand;
mod index;
mod object;
mod player;
