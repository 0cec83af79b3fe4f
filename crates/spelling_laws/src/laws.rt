ghost use Rattle.std.specs.Prelude.{◌<◌, ◌^◌};
ghost use Rattle.x86_instr.specs.declared.instr.Instr.{Instr};
ghost use Rattle.x86_instr.specs.Fits.{InForm};
ghost use Rattle.x86_spelling.specs.Spells.{IsSpelled};

/// Whatever has a spelling at a 64-bit address is in form: its fields are in range, and its operands and
/// widths are such as its operation has. The call does nothing.
pub fn spelled_in_form()
    ensures { (i : Instr) → i.addr < 2 ^ 64 → IsSpelled i → InForm i }
{}
