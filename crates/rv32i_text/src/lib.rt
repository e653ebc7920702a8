//! Instructions as the manual writes them, so that a word stands beside its line of assembly.
#![tactic(auto)]

ghost use Rattle.std.specs.Prelude.{◌≡◌, IfOk, string_bytes};
ghost use Rattle.rv32i_text.specs.Assembly.{assembly_text};

use rv32i::instruction::Instruction;
use std::alloc::{AllocError, Global};

mod display;
mod mnemonic;

pub use display::AssemblyText;

/// The line of assembly.
// What `AssemblyText` shows, as a text of its own.
pub fn assembly(heap: Global, instruction: Instruction) -> Result<String, AllocError>
    ensures { IfOk result (λ line. string_bytes line ≡ assembly_text instruction) }
{
    format!(in heap; "{}", AssemblyText(instruction))
}
