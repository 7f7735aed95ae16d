//! Reading of ELF32 executables for RISC-V, as the ELF specification (Tool Interface Standard,
//! version 1.2) and the RISC-V ELF psABI define them.
#![tactic(auto)]

mod entries;
mod error;
mod fields;
mod overlap;
mod program;
mod reading;
mod symbols;

pub use error::ElfError;
pub use reading::read_elf;
