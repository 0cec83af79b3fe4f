ghost use Rattle.std.specs.Prelude.{◌≡◌, ◌≢◌, ◌↔◌, ℕ, if◌then◌else◌, None, OnErr, OnOk, Some};
ghost use Rattle.x86_instr.specs.declared.class.Class.TheVariants as class;
ghost use Rattle.x86_instr.specs.Classes.{class_of};
ghost use Rattle.x86_instr.specs.Fits.{FitsCondition, InForm};
ghost use Rattle.x86_machine.specs.State.{State, reg, state_of, with_rip};
ghost use Rattle.x86_machine.specs.Access.{read, NamesInstr};
ghost use Rattle.x86_machine.specs.Steps.{divided, quotients};
ghost use Rattle.x86_machine.specs.Moves.{holds, pushed, quad_at, rsp_popped};
ghost use Rattle.x86_machine.specs.Next.{goes_on, goes_on_if, next, next_address, outcome_of, passes, target};

use crate::machine::{Machine, Outcome};
use bits_core::{Alu, Shift, Width};
use no_memory::NoMemory;
use x86_instr::{Class, Instr, Op};

fn next_address(i: &Instr) -> u64
    ensures { result ≡ next_address i.now }
{
    i.addr.wrapping_add(u64::from(i.len))
}

impl Machine {
    /// Takes one step by an instruction at rip. Bits 0 to 3 of `choice` are the values that CF, ZF, SF and OF take
    /// where the instruction leaves them undefined; with bit 4 set a 32-bit shift or rotation by a count in CL that is 0
    /// after masking keeps the upper half. The state changes only where the outcome is `Moved` (Intel SDM volume 2,
    /// chapters 3 to 5).
    #[tactic(auto, using(crate::proofs::StepLemmas::form_names, crate::proofs::StepLemmas::call_is, crate::proofs::StepLemmas::return_is))]
    pub fn advance(&mut self, i: &Instr, choice: u8) -> Outcome
        requires at_rip { i.now.addr ≡ (state_of self.old).rip }
        requires in_form { InForm i.now }
        ensures moved { result ≡ Outcome.Moved → next (state_of self.old) i.now choice ≡ Some (state_of self.new) }
        ensures unchanged { result ≢ Outcome.Moved → state_of self.new ≡ state_of self.old }
        ensures outcome { result ≢ Outcome.NoMemory → result ≡ outcome_of (state_of self.old) i.now choice }
        ensures divide_fault { (result ≡ Outcome.DivideFault) ↔ (outcome_of (state_of self.old) i.now choice ≡ Outcome.DivideFault) }
        ensures stopped { (result ≡ Outcome.Stopped) ↔ (outcome_of (state_of self.old) i.now choice ≡ Outcome.Stopped) }
        ensures outside { (result ≡ Outcome.Outside) ↔ (outcome_of (state_of self.old) i.now choice ≡ Outcome.Outside) }
    {
        match i.op.class() {
            Class::Calculation => match self.calculate(i, choice) {
                Ok(()) => self.pass(i),
                Err(NoMemory) => Outcome::NoMemory,
            },
            Class::Transfer => match self.transfer(i) {
                Ok(()) => self.pass(i),
                Err(NoMemory) => Outcome::NoMemory,
            },
            Class::Division => self.divide_and_pass(i, choice),
            Class::Jump => self.jump(i),
            Class::Call => match self.call(i) {
                Ok(()) => Outcome::Moved,
                Err(NoMemory) => Outcome::NoMemory,
            },
            Class::Return => {
                let target = self.take_top();
                self.set_rip(target);
                Outcome::Moved
            }
            Class::SystemCall => Outcome::Outside,
            Class::Stop => Outcome::Stopped,
        }
    }

    // Goes on at the next instruction.
    fn pass(&mut self, i: &Instr) -> Outcome
        ensures moved { result ≡ Outcome.Moved }
        ensures passes { state_of self.new ≡ passes i.now (state_of self.old) }
    {
        self.set_rip(next_address(i));
        Outcome::Moved
    }

    #[tactic(auto, using(crate::proofs::StepLemmas::all_divisions))]
    fn divide_and_pass(&mut self, i: &Instr, choice: u8) -> Outcome
        requires names { NamesInstr i.now }
        requires divides { class_of i.now.op ≡ class.Division }
        ensures moved { result ≡ Outcome.Moved → next (state_of self.old) i.now choice ≡ Some (state_of self.new) }
        ensures fault { result ≢ Outcome.Moved → (result ≡ Outcome.DivideFault) × (next (state_of self.old) i.now choice ≡ None) × (state_of self.new ≡ state_of self.old) }
    {
        let fits = match i.op {
            Op::Div => self.divide(false, i, choice),
            Op::Idiv => self.divide(true, i, choice),
            _ => unreachable!(),
        };
        if fits {
            self.pass(i)
        } else {
            Outcome::DivideFault
        }
    }

    #[tactic(auto, using(crate::proofs::StepLemmas::form_names, crate::proofs::StepLemmas::jump_condition, crate::proofs::StepLemmas::all_jumps))]
    fn jump(&mut self, i: &Instr) -> Outcome
        requires in_form { InForm i.now }
        requires jumps { class_of i.now.op ≡ class.Jump }
        ensures moved { result ≡ Outcome.Moved }
        ensures next { (choice : ℕ) → next (state_of self.old) i.now choice ≡ Some (state_of self.new) }
    {
        match i.op {
            Op::Jcc => self.jump_if(i),
            Op::Jmp => self.set_rip(self.read(Width::W64, i.dst)),
            _ => unreachable!(),
        }
        Outcome::Moved
    }

    fn jump_if(&mut self, i: &Instr)
        requires names { NamesInstr i.now }
        requires cc { FitsCondition i.now.cc }
        ensures { state_of self.new ≡ with_rip (state_of self.old) (if holds (state_of self.old) i.now then target (state_of self.old) i.now else next_address i.now) }
    {
        let target = if self.holds(i) {
            self.read(Width::W64, i.dst)
        } else {
            next_address(i)
        };
        self.set_rip(target);
    }

    fn call(&mut self, i: &Instr) -> Result<(), NoMemory>
        requires { NamesInstr i.now }
        ensures ok { OnOk result (state_of self.new ≡ with_rip (pushed (state_of self.old) (next_address i.now)) (target (state_of self.old) i.now)) }
        ensures err { OnErr result (state_of self.new ≡ state_of self.old) }
    {
        let target = self.read(Width::W64, i.dst);
        self.push(next_address(i))?;
        self.set_rip(target);
        Ok(())
    }

    // What a calculation does, rip apart.
    #[tactic(auto, using(crate::proofs::StepLemmas::form_names, crate::proofs::StepLemmas::all_calculations))]
    fn calculate(&mut self, i: &Instr, choice: u8) -> Result<(), NoMemory>
        requires in_form { InForm i.now }
        requires calculates { class_of i.now.op ≡ class.Calculation }
        ensures ok { OnOk result (next (state_of self.old) i.now choice ≡ goes_on i.now (state_of self.new)) }
        ensures err { OnErr result (state_of self.new ≡ state_of self.old) }
    {
        match i.op {
            Op::Add => self.combine(Alu::Add, i),
            Op::Or => self.combine(Alu::Or, i),
            Op::Adc => self.combine(Alu::Adc, i),
            Op::Sbb => self.combine(Alu::Sbb, i),
            Op::And => self.combine(Alu::And, i),
            Op::Sub => self.combine(Alu::Sub, i),
            Op::Xor => self.combine(Alu::Xor, i),
            Op::Cmp => self.compare(Alu::Sub, i),
            Op::Test => self.compare(Alu::And, i),
            Op::Not => self.invert(i),
            Op::Neg => self.negate(i),
            Op::Inc => self.count(Alu::Add, i),
            Op::Dec => self.count(Alu::Sub, i),
            Op::Mul => self.multiply(false, i, choice),
            Op::Imul1 => self.multiply(true, i, choice),
            Op::Imul2 => self.scale(
                self.read(i.width, i.dst),
                self.read(i.width, i.src),
                i,
                choice,
            ),
            Op::Imul3 => self.scale(self.read(i.width, i.src), i.extra, i, choice),
            Op::Rol => self.shift(Shift::Rol, i, choice),
            Op::Ror => self.shift(Shift::Ror, i, choice),
            Op::Shl => self.shift(Shift::Shl, i, choice),
            Op::Shr => self.shift(Shift::Shr, i, choice),
            Op::Sar => self.shift(Shift::Sar, i, choice),
            _ => unreachable!(),
        }
    }

    // What an instruction that moves data does, rip apart.
    #[tactic(auto, using(crate::proofs::StepLemmas::form_names, crate::proofs::StepLemmas::all_transfers, crate::proofs::StepLemmas::pop_register, crate::proofs::StepLemmas::exchange_register, crate::proofs::StepLemmas::choose_condition, crate::proofs::StepLemmas::set_condition))]
    fn transfer(&mut self, i: &Instr) -> Result<(), NoMemory>
        requires in_form { InForm i.now }
        requires transfers { class_of i.now.op ≡ class.Transfer }
        ensures ok { OnOk result ((choice : ℕ) → next (state_of self.old) i.now choice ≡ goes_on i.now (state_of self.new)) }
        ensures err { OnErr result (state_of self.new ≡ state_of self.old) }
    {
        match i.op {
            Op::Mov => self.copy(i),
            Op::Lea => self.take_address(i),
            Op::Movzx => self.extend_by_zeros(i),
            Op::Movsx => self.extend_by_sign(i),
            Op::Push => self.push(self.read(Width::W64, i.dst)),
            Op::Pop => self.pop(i),
            Op::Leave => self.leave(),
            Op::Widen => self.widen(i),
            Op::Signs => self.spread_sign(i),
            Op::Xchg => self.exchange(i),
            Op::Bswap => self.swap_bytes(i),
            Op::Cmov => self.choose(i),
            Op::Setcc => self.set(i),
            Op::Nop => Ok(()),
            _ => unreachable!(),
        }
    }
}
