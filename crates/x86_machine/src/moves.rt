ghost use Rattle.std.specs.Prelude.{◌≡◌, ◌^◌, ◌<◌, ◌≤◌, false, OnErr, OnOk};
ghost use Rattle.bits_core.specs.Shifts.{count_modulus};
ghost use Rattle.x86_instr.specs.Fits.{is_place, FitsCondition};
ghost use Rattle.x86_instr.specs.Registers.{rsp};
ghost use Rattle.x86_machine.specs.Memory.{loaded};
ghost use Rattle.x86_machine.specs.State.{State, state_of, reg, with_flags};
ghost use Rattle.x86_machine.specs.Access.{address_of, read, write, NamesInstr, NamesRegisters};
ghost use Rattle.x86_machine.specs.Steps.{addressed, extended_by_sign, extended_by_zeros, moved};
ghost use Rattle.x86_machine.specs.Moves.{after_cmov, after_cwd, after_leave, after_setcc, exchanged, half_of, holds, is_turn, keeps_upper, popped, pushed, quad_at, rsp_popped, shift_flags, shifted, swapped, swapped_bytes, widened};

use crate::machine::Machine;
use crate::steps::{bit, signs_of};
use bits_core::{Flags, Shift, Width, cond, cut, sext, shift};
use no_memory::NoMemory;
use x86_instr::{Instr, Operand, RAX, RBP, RDX, RSP};

fn is_turn(op: Shift) -> bool
    ensures { result ≡ is_turn op }
{
    matches!(op, Shift::Rol | Shift::Ror)
}

// A count is taken modulo this.
fn count_modulus(w: Width) -> u8
    ensures value { result ≡ count_modulus w }
    ensures least { 32 ≤ result }
{
    match w {
        Width::W64 => 64,
        _ => 32,
    }
}

// CF and OF are free; ZF and SF follow the result, or stay.
#[tactic(auto, unfolding(crate::specs::Moves::shift_flags))]
fn shift_flags(old: Flags, w: Width, stays: bool, result_value: u64, choice: u8) -> Flags
    ensures { result ≡ shift_flags old w stays result_value choice }
{
    let sign = result_value >= 1 << (w.bits() - 1);
    Flags {
        carry: bit(choice, 0),
        zero: if stays { old.zero } else { result_value == 0 },
        sign: if stays { old.sign } else { sign },
        over: bit(choice, 3),
    }
}

fn keeps_upper(count: Operand, w: Width, idle: bool, choice: u8) -> bool
    ensures { result ≡ keeps_upper count w idle choice }
{
    match (count, w) {
        (Operand::Reg(_), Width::W32) => idle && bit(choice, 4),
        _ => false,
    }
}

fn half_of(w: Width) -> Width
    ensures { result ≡ half_of w }
{
    match w {
        Width::W8 | Width::W16 => Width::W8,
        Width::W32 => Width::W16,
        Width::W64 => Width::W32,
    }
}

fn swapped_bytes(w: Width, value: u64) -> u64
    ensures { result ≡ swapped_bytes w value }
{
    match w {
        Width::W8 | Width::W16 => value,
        Width::W32 => u64::from((cut(Width::W32, value) as u32).swap_bytes()),
        Width::W64 => value.swap_bytes(),
    }
}

impl Machine {
    pub(crate) fn shift(&mut self, op: Shift, i: &Instr, choice: u8) -> Result<(), NoMemory>
        requires { NamesInstr i.now }
        ensures ok { OnOk result (state_of self.new ≡ shifted op (state_of self.old) i.now choice) }
        ensures err { OnErr result (state_of self.new ≡ state_of self.old) }
    {
        let count = cut(Width::W8, self.read(Width::W8, i.src)) as u8;
        let idle = count % count_modulus(i.width) == 0;
        let value = shift(op, i.width, self.read(i.width, i.dst), count);
        let flags = shift_flags(self.flags(), i.width, idle || is_turn(op), value, choice);
        if !keeps_upper(i.src, i.width, idle, choice) {
            self.write(i.width, i.dst, value)?;
        }
        self.set_flags(flags);
        Ok(())
    }

    pub(crate) fn copy(&mut self, i: &Instr) -> Result<(), NoMemory>
        requires { NamesInstr i.now }
        ensures ok { OnOk result (state_of self.new ≡ moved (state_of self.old) i.now) }
        ensures err { OnErr result (state_of self.new ≡ state_of self.old) }
    {
        self.write(i.width, i.dst, self.read(i.width, i.src))
    }

    pub(crate) fn take_address(&mut self, i: &Instr) -> Result<(), NoMemory>
        requires { NamesInstr i.now }
        ensures ok { OnOk result (state_of self.new ≡ addressed (state_of self.old) i.now) }
        ensures err { OnErr result (state_of self.new ≡ state_of self.old) }
    {
        self.write(i.width, i.dst, self.address_of(i.src))
    }

    pub(crate) fn extend_by_zeros(&mut self, i: &Instr) -> Result<(), NoMemory>
        requires { NamesInstr i.now }
        ensures ok { OnOk result (state_of self.new ≡ extended_by_zeros (state_of self.old) i.now) }
        ensures err { OnErr result (state_of self.new ≡ state_of self.old) }
    {
        self.write(i.width, i.dst, self.read(i.src_width, i.src))
    }

    pub(crate) fn extend_by_sign(&mut self, i: &Instr) -> Result<(), NoMemory>
        requires { NamesInstr i.now }
        ensures ok { OnOk result (state_of self.new ≡ extended_by_sign (state_of self.old) i.now) }
        ensures err { OnErr result (state_of self.new ≡ state_of self.old) }
    {
        let value = sext(i.src_width, self.read(i.src_width, i.src));
        self.write(i.width, i.dst, value)
    }

    // Puts eight bytes on the stack.
    pub(crate) fn push(&mut self, value: u64) -> Result<(), NoMemory>
        ensures ok { OnOk result (state_of self.new ≡ pushed (state_of self.old) value) }
        ensures err { OnErr result (state_of self.new ≡ state_of self.old) }
    {
        let top = self.reg(RSP).wrapping_sub(8);
        self.store(top, 8, value)?;
        self.set_reg(RSP, top);
        Ok(())
    }

    // Takes eight bytes from the stack.
    pub(crate) fn take_top(&mut self) -> u64
        ensures value { result ≡ quad_at (state_of self.old) (reg (state_of self.old) rsp) }
        ensures popped { state_of self.new ≡ rsp_popped (state_of self.old) }
    {
        let top = self.reg(RSP);
        let value = self.load(top, 8);
        self.set_reg(RSP, top.wrapping_add(8));
        value
    }

    // A destination that is a register takes the top of the stack, which goes first.
    pub(crate) fn pop(&mut self, i: &Instr) -> Result<(), NoMemory>
        requires names { NamesInstr i.now }
        requires register { is_place i.now.dst ≡ false }
        ensures ok { OnOk result (state_of self.new ≡ popped (state_of self.old) i.now) }
        ensures err { OnErr result (state_of self.new ≡ state_of self.old) }
    {
        let value = self.take_top();
        self.write_register(Width::W64, i.dst, value);
        Ok(())
    }

    pub(crate) fn leave(&mut self) -> Result<(), NoMemory>
        ensures ok { OnOk result (state_of self.new ≡ after_leave (state_of self.old)) }
        ensures err { OnErr result (state_of self.new ≡ state_of self.old) }
    {
        let frame = self.reg(RBP);
        let saved = self.load(frame, 8);
        self.set_reg(RSP, frame.wrapping_add(8));
        self.set_reg(RBP, saved);
        Ok(())
    }

    pub(crate) fn widen(&mut self, i: &Instr) -> Result<(), NoMemory>
        ensures ok { OnOk result (state_of self.new ≡ widened (state_of self.old) i.now) }
        ensures err { OnErr result (state_of self.new ≡ state_of self.old) }
    {
        let value = sext(half_of(i.width), self.reg(RAX));
        self.set_part(i.width, RAX, value);
        Ok(())
    }

    pub(crate) fn spread_sign(&mut self, i: &Instr) -> Result<(), NoMemory>
        ensures ok { OnOk result (state_of self.new ≡ after_cwd (state_of self.old) i.now) }
        ensures err { OnErr result (state_of self.new ≡ state_of self.old) }
    {
        let value = signs_of(i.width, self.read(i.width, Operand::Reg(RAX)));
        self.set_part(i.width, RDX, value);
        Ok(())
    }

    pub(crate) fn exchange(&mut self, i: &Instr) -> Result<(), NoMemory>
        requires names { NamesInstr i.now }
        requires register { is_place i.now.src ≡ false }
        ensures ok { OnOk result (state_of self.new ≡ exchanged (state_of self.old) i.now) }
        ensures err { OnErr result (state_of self.new ≡ state_of self.old) }
    {
        let first = self.read(i.width, i.dst);
        let second = self.read(i.width, i.src);
        self.write(i.width, i.dst, second)?;
        self.write_register(i.width, i.src, first);
        Ok(())
    }

    pub(crate) fn swap_bytes(&mut self, i: &Instr) -> Result<(), NoMemory>
        requires { NamesInstr i.now }
        ensures ok { OnOk result (state_of self.new ≡ swapped (state_of self.old) i.now) }
        ensures err { OnErr result (state_of self.new ≡ state_of self.old) }
    {
        let value = swapped_bytes(i.width, self.read(i.width, i.dst));
        self.write(i.width, i.dst, value)
    }

    // The condition of the instruction holds.
    pub(crate) fn holds(&self, i: &Instr) -> bool
        requires { FitsCondition i.now.cc }
        ensures { result ≡ holds (state_of self.now) i.now }
    {
        cond(i.cc, self.flags())
    }

    pub(crate) fn choose(&mut self, i: &Instr) -> Result<(), NoMemory>
        requires names { NamesInstr i.now }
        requires cc { FitsCondition i.now.cc }
        ensures ok { OnOk result (state_of self.new ≡ after_cmov (state_of self.old) i.now) }
        ensures err { OnErr result (state_of self.new ≡ state_of self.old) }
    {
        let from = if self.holds(i) { i.src } else { i.dst };
        self.write(i.width, i.dst, self.read(i.width, from))
    }

    pub(crate) fn set(&mut self, i: &Instr) -> Result<(), NoMemory>
        requires names { NamesInstr i.now }
        requires cc { FitsCondition i.now.cc }
        ensures ok { OnOk result (state_of self.new ≡ after_setcc (state_of self.old) i.now) }
        ensures err { OnErr result (state_of self.new ≡ state_of self.old) }
    {
        self.write(Width::W8, i.dst, u64::from(self.holds(i)))
    }
}
