ghost use Rattle.std.specs.Prelude.{◌≡◌, ◌<◌, is_some, OnErr, OnOk, Some};
ghost use Rattle.std.specs.Bool.{OnFalse, OnTrue};
ghost use Rattle.bits_core.specs.Shifts.{count_modulus};
ghost use Rattle.x86_machine.specs.State.{State, state_of, with_flags};
ghost use Rattle.x86_machine.specs.Access.{address_of, read, write, NamesInstr, NamesRegisters};
ghost use Rattle.x86_machine.specs.Steps.{bit, combined, compared, counted, divided, gives, operated, inverted, multiplied, negated, product_flags, quotients, scaled, signs_of, undefined_flags, upper_of, with_halves};

use crate::machine::Machine;
use bits_core::{Alu, Flags, Width, alu, cut, div_wide, mul_wide};
use no_memory::NoMemory;
use x86_instr::{Instr, Operand, RAX, RDX};

// A bit of the choice.
pub fn bit(choice: u8, k: u32) -> bool
    requires { k < 8 }
    ensures { result ≡ bit choice k }
{
    choice >> k & 1 == 1
}

// The values of the flags that an instruction leaves undefined: bits 0 to 3 of the choice.
#[tactic(auto, unfolding(crate::specs::Steps::undefined_flags))]
pub fn undefined_flags(choice: u8) -> Flags
    ensures { result ≡ undefined_flags choice }
{
    Flags {
        carry: bit(choice, 0),
        zero: bit(choice, 1),
        sign: bit(choice, 2),
        over: bit(choice, 3),
    }
}

// All bits as the highest bit of a number of the width.
#[tactic(auto, unfolding(crate::specs::Steps::signs_of))]
pub fn signs_of(w: Width, low: u64) -> u64
    ensures { result ≡ signs_of w low }
{
    if low < 1 << (w.bits() - 1) {
        0
    } else {
        cut(w, u64::MAX)
    }
}

fn upper_of(w: Width, signed: bool, low: u64) -> u64
    ensures { result ≡ upper_of w signed low }
{
    if signed { signs_of(w, low) } else { 0 }
}

// CF and OF say that the lower half does not hold the product; ZF and SF are free.
#[tactic(auto, unfolding(crate::specs::Steps::product_flags))]
fn product_flags(w: Width, signed: bool, product: (u64, u64), choice: u8) -> Flags
    ensures { result ≡ product_flags w signed product choice }
{
    let lost = product.1 != upper_of(w, signed, product.0);
    Flags {
        carry: lost,
        over: lost,
        ..undefined_flags(choice)
    }
}

impl Machine {
    // A result that replaces the first operand, and the flags after it.
    pub(crate) fn give(&mut self, i: &Instr, value: u64, flags: Flags) -> Result<(), NoMemory>
        requires { NamesInstr i.now }
        ensures ok { OnOk result (state_of self.new ≡ gives (state_of self.old) i.now (value, flags)) }
        ensures err { OnErr result (state_of self.new ≡ state_of self.old) }
    {
        self.write(i.width, i.dst, value)?;
        self.set_flags(flags);
        Ok(())
    }

    // What both operands give.
    fn operated(&self, op: Alu, i: &Instr) -> (u64, Flags)
        requires { NamesInstr i.now }
        ensures { result ≡ operated op (state_of self.now) i.now }
    {
        let first = self.read(i.width, i.dst);
        let second = self.read(i.width, i.src);
        alu(op, i.width, first, second, self.flags().carry)
    }

    pub(crate) fn combine(&mut self, op: Alu, i: &Instr) -> Result<(), NoMemory>
        requires { NamesInstr i.now }
        ensures ok { OnOk result (state_of self.new ≡ combined op (state_of self.old) i.now) }
        ensures err { OnErr result (state_of self.new ≡ state_of self.old) }
    {
        let (value, flags) = self.operated(op, i);
        self.give(i, value, flags)
    }

    pub(crate) fn compare(&mut self, op: Alu, i: &Instr) -> Result<(), NoMemory>
        requires { NamesInstr i.now }
        ensures ok { OnOk result (state_of self.new ≡ compared op (state_of self.old) i.now) }
        ensures err { OnErr result (state_of self.new ≡ state_of self.old) }
    {
        let (_, flags) = self.operated(op, i);
        self.set_flags(flags);
        Ok(())
    }

    pub(crate) fn invert(&mut self, i: &Instr) -> Result<(), NoMemory>
        requires { NamesInstr i.now }
        ensures ok { OnOk result (state_of self.new ≡ inverted (state_of self.old) i.now) }
        ensures err { OnErr result (state_of self.new ≡ state_of self.old) }
    {
        let (value, _) = alu(
            Alu::Sub,
            i.width,
            u64::MAX,
            self.read(i.width, i.dst),
            false,
        );
        self.write(i.width, i.dst, value)
    }

    pub(crate) fn negate(&mut self, i: &Instr) -> Result<(), NoMemory>
        requires { NamesInstr i.now }
        ensures ok { OnOk result (state_of self.new ≡ negated (state_of self.old) i.now) }
        ensures err { OnErr result (state_of self.new ≡ state_of self.old) }
    {
        let (value, flags) = alu(Alu::Sub, i.width, 0, self.read(i.width, i.dst), false);
        self.give(i, value, flags)
    }

    // One more (Add) or one less (Sub); CF stays.
    pub(crate) fn count(&mut self, op: Alu, i: &Instr) -> Result<(), NoMemory>
        requires { NamesInstr i.now }
        ensures ok { OnOk result (state_of self.new ≡ counted op (state_of self.old) i.now) }
        ensures err { OnErr result (state_of self.new ≡ state_of self.old) }
    {
        let (value, flags) = alu(op, i.width, self.read(i.width, i.dst), 1, false);
        let carry = self.flags().carry;
        self.give(i, value, Flags { carry, ..flags })
    }

    // Puts two halves into rdx:rax.
    fn set_halves(&mut self, w: Width, low: u64, high: u64)
        ensures { state_of self.new ≡ with_halves (state_of self.old) w (low, high) }
    {
        self.set_part(w, RAX, low);
        self.set_part(w, RDX, high);
    }

    pub(crate) fn multiply(&mut self, signed: bool, i: &Instr, choice: u8) -> Result<(), NoMemory>
        requires { NamesInstr i.now }
        ensures ok { OnOk result (state_of self.new ≡ multiplied signed (state_of self.old) i.now choice) }
        ensures err { OnErr result (state_of self.new ≡ state_of self.old) }
    {
        let factor = self.read(i.width, i.dst);
        let product = mul_wide(
            i.width,
            signed,
            self.read(i.width, Operand::Reg(RAX)),
            factor,
        );
        self.set_halves(i.width, product.0, product.1);
        self.set_flags(product_flags(i.width, signed, product, choice));
        Ok(())
    }

    // The lower half of a product replaces the first operand.
    pub(crate) fn scale(&mut self, a: u64, b: u64, i: &Instr, choice: u8) -> Result<(), NoMemory>
        requires { NamesInstr i.now }
        ensures ok { OnOk result (state_of self.new ≡ scaled a b (state_of self.old) i.now choice) }
        ensures err { OnErr result (state_of self.new ≡ state_of self.old) }
    {
        let product = mul_wide(i.width, true, a, b);
        self.give(i, product.0, product_flags(i.width, true, product, choice))
    }

    // Divides rdx:rax; gives whether there is a quotient that fits.
    pub(crate) fn divide(&mut self, signed: bool, i: &Instr, choice: u8) -> bool
        requires { NamesInstr i.now }
        ensures fits { result ≡ is_some (quotients signed (state_of self.old) i.now) }
        ensures moved { OnTrue result (divided (quotients signed (state_of self.old) i.now) (state_of self.old) i.now choice ≡ Some (state_of self.new)) }
        ensures fault { OnFalse result (state_of self.new ≡ state_of self.old) }
    {
        let by = self.read(i.width, i.dst);
        let high = self.read(i.width, Operand::Reg(RDX));
        let low = self.read(i.width, Operand::Reg(RAX));
        match div_wide(i.width, signed, high, low, by) {
            Some((quotient, rest)) => {
                self.set_halves(i.width, quotient, rest);
                self.set_flags(undefined_flags(choice));
                true
            }
            None => false,
        }
    }
}
