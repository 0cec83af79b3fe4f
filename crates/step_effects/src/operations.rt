ghost use Rattle.std.specs.Prelude.{◌≡◌, OnOk};
ghost use Rattle.step_rules.specs.Executed.{executed};
ghost use Rattle.step_values.specs.Views.{view_of};

use crate::moves::{
    addressed, after_cwd, after_leave, after_setcc, exchanged, extended_by_sign, moved,
    operand_pushed, popped, swapped, widened,
};
use crate::steps::{
    combined, compared, counted, inverted, multiplied, negated, scaled_by_number,
    scaled_by_operand, shifted,
};
use bits_core::{Alu, Shift};
use predicates::SiteView;
use std::alloc::Global;
use step_values::After;
use sym_terms::NoMemory;
use x86_instr::{Instr, Op};

/// After an instruction that goes on at the next one, from what is known without its site's old name.
pub fn executed(after: &mut After, alloc: Global, v: &SiteView, i: &Instr) -> Result<(), NoMemory>
    ensures { OnOk result (after.new ≡ executed i.now.op (view_of v.now) i.now after.old) }
{
    match i.op {
        Op::Add => combined(after, alloc, Alu::Add, v, i),
        Op::Or => combined(after, alloc, Alu::Or, v, i),
        Op::Adc => combined(after, alloc, Alu::Adc, v, i),
        Op::Sbb => combined(after, alloc, Alu::Sbb, v, i),
        Op::And => combined(after, alloc, Alu::And, v, i),
        Op::Sub => combined(after, alloc, Alu::Sub, v, i),
        Op::Xor => combined(after, alloc, Alu::Xor, v, i),
        Op::Cmp => compared(after, alloc, Alu::Sub, v, i),
        Op::Test => compared(after, alloc, Alu::And, v, i),
        Op::Not => inverted(after, alloc, v, i),
        Op::Neg => negated(after, alloc, v, i),
        Op::Inc => counted(after, alloc, Alu::Add, v, i),
        Op::Dec => counted(after, alloc, Alu::Sub, v, i),
        Op::Mul | Op::Imul1 | Op::Div | Op::Idiv => multiplied(after, alloc, v, i),
        Op::Imul2 => scaled_by_operand(after, alloc, v, i),
        Op::Imul3 => scaled_by_number(after, alloc, v, i),
        Op::Rol => shifted(after, alloc, Shift::Rol, v, i),
        Op::Ror => shifted(after, alloc, Shift::Ror, v, i),
        Op::Shl => shifted(after, alloc, Shift::Shl, v, i),
        Op::Shr => shifted(after, alloc, Shift::Shr, v, i),
        Op::Sar => shifted(after, alloc, Shift::Sar, v, i),
        Op::Mov | Op::Movzx => moved(after, alloc, v, i),
        Op::Lea => addressed(after, alloc, v, i),
        Op::Movsx => extended_by_sign(after, alloc, v, i),
        Op::Push => operand_pushed(after, alloc, v, i),
        Op::Pop => popped(after, alloc, v, i),
        Op::Leave => after_leave(after, alloc, v, i),
        Op::Widen => widened(after, alloc, v, i),
        Op::Signs => after_cwd(after, alloc, v, i),
        Op::Xchg => exchanged(after, alloc, v, i),
        Op::Bswap | Op::Cmov => swapped(after, alloc, v, i),
        Op::Setcc => after_setcc(after, alloc, v, i),
        _ => Ok(()),
    }
}
