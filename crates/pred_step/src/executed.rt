ghost use Rattle.std.specs.Prelude.{◌≡◌, OnOk};
ghost use Rattle.step_rules.specs.Executed.{executed};
ghost use Rattle.pred_moves.specs.Views.{view_of};

use crate::moves::{
    addressed, after_leave, exchanged, extended_by_sign, moved, operand_pushed, popped, widened,
};
use crate::steps::{
    combined, compared, counted, inverted, multiplied, negated, scaled_by_number,
    scaled_by_operand, shifted,
};
use bits_core::{Alu, Shift, Width};
use pred_moves::write;
use predicates::{Pred, SiteView};
use std::alloc::Global;
use sym_terms::NoMemory;
use x86_instr::{Instr, Op, Operand, RDX};

/// After an instruction that goes on at the next one, from what is known without its site's old name.
pub(crate) fn executed(alloc: Global, v: &SiteView, i: &Instr, p: &mut Pred) -> Result<(), NoMemory>
    ensures { OnOk result (p.new ≡ executed i.now.op (view_of v.now) i.now p.old) }
{
    match i.op {
        Op::Mov | Op::Movzx => moved(alloc, v, i, p),
        Op::Movsx => extended_by_sign(alloc, v, i, p),
        Op::Lea => addressed(alloc, v, i, p),
        Op::Push => operand_pushed(alloc, v, i, p),
        Op::Pop => popped(alloc, v, i, p),
        Op::Leave => after_leave(alloc, v, i, p),
        Op::Xchg => exchanged(alloc, v, i, p),
        Op::Widen => widened(alloc, v, i, p),
        // Nothing is known of a sign in each bit, of turned bytes and of a choice.
        Op::Signs => write(alloc, v, i, p, i.width, &Operand::Reg(RDX), None),
        Op::Bswap | Op::Cmov => write(alloc, v, i, p, i.width, &i.dst, None),
        Op::Setcc => write(alloc, v, i, p, Width::W8, &i.dst, None),
        Op::Cmp => compared(alloc, v, i, p, Alu::Sub),
        Op::Test => compared(alloc, v, i, p, Alu::And),
        Op::Add => combined(alloc, v, i, p, Alu::Add),
        Op::Sub => combined(alloc, v, i, p, Alu::Sub),
        Op::And => combined(alloc, v, i, p, Alu::And),
        Op::Or => combined(alloc, v, i, p, Alu::Or),
        Op::Xor => combined(alloc, v, i, p, Alu::Xor),
        Op::Adc => combined(alloc, v, i, p, Alu::Adc),
        Op::Sbb => combined(alloc, v, i, p, Alu::Sbb),
        Op::Inc => counted(alloc, v, i, p, Alu::Add),
        Op::Dec => counted(alloc, v, i, p, Alu::Sub),
        Op::Neg => negated(alloc, v, i, p),
        Op::Not => inverted(alloc, v, i, p),
        Op::Shl => shifted(alloc, v, i, p, Shift::Shl),
        Op::Shr => shifted(alloc, v, i, p, Shift::Shr),
        Op::Sar => shifted(alloc, v, i, p, Shift::Sar),
        Op::Rol => shifted(alloc, v, i, p, Shift::Rol),
        Op::Ror => shifted(alloc, v, i, p, Shift::Ror),
        Op::Mul | Op::Imul1 | Op::Div | Op::Idiv => multiplied(alloc, v, i, p),
        Op::Imul2 => scaled_by_operand(alloc, v, i, p),
        Op::Imul3 => scaled_by_number(alloc, v, i, p),
        _ => Ok(()),
    }
}
