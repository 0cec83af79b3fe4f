ghost use Rattle.std.specs.Prelude.{◌≡◌, ◌<◌, ◌≤◌, IfSome, IsOk, OnErr, OnOk, false};
ghost use Rattle.x86_instr.specs.Fits.{is_place};
ghost use Rattle.bits_core.specs.Width.{bytes_of};
ghost use Rattle.x86_machine.specs.Memory.{loaded, put_at};
ghost use Rattle.x86_machine.specs.State.{State, reg, state_of, with_bytes, with_flags, with_reg, with_rip};
ghost use Rattle.x86_machine.specs.Access.{address, address_of, merged, merged_high, part, read, segment, write, NamesPlace, NamesRegisters};

use crate::memory::Memory;
use bits_core::{Flags, Width, cut};
use no_memory::NoMemory;
use std::alloc::Global;
use x86_instr::{Operand, Place};

/// What came of one step (Intel SDM volume 2).
#[derive(Clone, Copy, Debug, PartialEq, Eq)]
pub enum Outcome {
    /// The state is the one after the instruction.
    Moved,
    /// `div` or `idiv` by 0, or with a quotient that does not fit (#DE).
    DivideFault,
    /// `hlt`, `ud2` or `int3`.
    Stopped,
    /// `syscall`.
    Outside,
    /// There was no memory for the bytes that the instruction writes.
    NoMemory,
}

/// A machine: sixteen registers, rip, four flags, the FS base, and the bytes that were put, all others 0.
#[derive(Drop)]
pub struct Machine {
    pub(crate) regs: [u64; 16],
    pub(crate) rip: u64,
    pub(crate) flags: Flags,
    pub(crate) fs_base: u64,
    pub(crate) memory: Memory,
}

impl Machine {
    /// A machine with these registers (rax 0, rcx 1, rdx 2, rbx 3, rsp 4, rbp 5, rsi 6, rdi 7, r8 8 to r15 15), this
    /// address in rip and this FS base, with all flags clear and all bytes 0.
    #[tactic(auto, unfolding(crate::specs::State::state_of))]
    pub fn start(alloc: Global, regs: [u64; 16], rip: u64, fsbase: u64) -> Machine
        ensures { state_of result ≡ record { regs = regs; rip = rip; flags = record { carry = false; zero = false; sign = false; over = false }; fs_base = fsbase; memory = λ at. 0 } }
    {
        Machine {
            regs,
            rip,
            flags: Flags {
                carry: false,
                zero: false,
                sign: false,
                over: false,
            },
            fs_base: fsbase,
            memory: Memory::new(alloc),
        }
    }

    /// Puts a byte at an address. `NoMemory` where there is no memory for it; the machine is unchanged then.
    #[tactic(auto, unfolding(crate::specs::State::state_of))]
    pub fn put_byte(&mut self, addr: u64, b: u8) -> Result<(), NoMemory>
        ensures ok { OnOk result (state_of self.new ≡ record (state_of self.old) { memory = put_at (state_of self.old).memory addr b }) }
        ensures err { OnErr result (state_of self.new ≡ state_of self.old) }
    {
        self.memory.put(addr, b)
    }

    /// The byte at an address, 0 where none was put.
    #[tactic(auto, unfolding(crate::specs::State::state_of))]
    pub fn byte(&self, addr: u64) -> u8
        ensures { result ≡ (state_of self.now).memory addr }
    {
        self.memory.byte(addr)
    }

    /// The number in `n` bytes from an address on, the lowest byte first, addresses modulo 2^64.
    #[tactic(auto, unfolding(crate::specs::State::state_of))]
    pub fn load(&self, addr: u64, n: u8) -> u64
        requires least { 1 ≤ n }
        requires most { n ≤ 8 }
        ensures { result ≡ loaded (state_of self.now).memory n addr }
    {
        self.memory.load(addr, n)
    }

    /// The 64 bits of a register by its number.
    #[tactic(auto, unfolding(crate::specs::State::state_of, crate::specs::State::reg))]
    pub fn reg(&self, r: u8) -> u64
        requires { r < 16 }
        ensures { result ≡ reg (state_of self.now) r }
    {
        self.regs[r as usize]
    }

    /// The address of the next instruction.
    #[tactic(auto, unfolding(crate::specs::State::state_of))]
    pub fn rip(&self) -> u64
        ensures { result ≡ (state_of self.now).rip }
    {
        self.rip
    }

    /// The four flags.
    #[tactic(auto, unfolding(crate::specs::State::state_of))]
    pub fn flags(&self) -> Flags
        ensures { result ≡ (state_of self.now).flags }
    {
        self.flags
    }

    #[tactic(auto, unfolding(crate::specs::State::state_of, crate::specs::State::with_reg))]
    pub(crate) fn set_reg(&mut self, r: u8, value: u64)
        requires { r < 16 }
        ensures { state_of self.new ≡ with_reg (state_of self.old) r value }
    {
        self.regs[r as usize] = value;
    }

    #[tactic(auto, unfolding(crate::specs::State::state_of, crate::specs::State::with_flags))]
    pub(crate) fn set_flags(&mut self, flags: Flags)
        ensures { state_of self.new ≡ with_flags (state_of self.old) flags }
    {
        self.flags = flags;
    }

    #[tactic(auto, unfolding(crate::specs::State::state_of, crate::specs::State::with_rip))]
    pub(crate) fn set_rip(&mut self, at: u64)
        ensures { state_of self.new ≡ with_rip (state_of self.old) at }
    {
        self.rip = at;
    }

    #[tactic(auto, unfolding(crate::specs::State::state_of, crate::specs::State::with_bytes))]
    pub(crate) fn store(&mut self, at: u64, n: u8, value: u64) -> Result<(), NoMemory>
        ensures ok { OnOk result (state_of self.new ≡ with_bytes (state_of self.old) n at value) }
        ensures err { OnErr result (state_of self.new ≡ state_of self.old) }
    {
        self.memory.store(at, n, value)
    }

    #[tactic(auto, unfolding(crate::specs::Access::part))]
    fn part(&self, r: Option<u8>) -> u64
        requires { IfSome r (λ n. n < 16) }
        ensures { result ≡ part (state_of self.now) r }
    {
        match r {
            Some(r) => self.reg(r),
            None => 0,
        }
    }

    #[tactic(auto, unfolding(crate::specs::State::state_of, crate::specs::Access::segment))]
    fn segment(&self, fs: bool) -> u64
        ensures { result ≡ segment (state_of self.now) fs }
    {
        if fs { self.fs_base } else { 0 }
    }

    // The effective address of a place.
    #[tactic(auto, unfolding(crate::specs::Access::address))]
    pub(crate) fn address(&self, p: Place) -> u64
        requires { NamesPlace p }
        ensures { result ≡ address (state_of self.now) p }
    {
        let index = self.part(p.index).wrapping_mul(u64::from(p.scale));
        self.part(p.base)
            .wrapping_add(index)
            .wrapping_add(p.disp)
            .wrapping_add(self.segment(p.fs))
    }

    // The effective address of an operand in memory.
    #[tactic(auto, unfolding(crate::specs::Access::address_of))]
    pub(crate) fn address_of(&self, operand: Operand) -> u64
        requires { NamesRegisters operand }
        ensures { result ≡ address_of (state_of self.now) operand }
    {
        match operand {
            Operand::Mem(p) => self.address(p),
            _ => 0,
        }
    }

    // The number that an operand is at a width.
    #[tactic(auto, unfolding(crate::specs::Access::read))]
    pub(crate) fn read(&self, w: Width, operand: Operand) -> u64
        requires { NamesRegisters operand }
        ensures { result ≡ read (state_of self.now) w operand }
    {
        match operand {
            Operand::None => 0,
            Operand::Reg(r) => cut(w, self.reg(r)),
            Operand::High(r) => self.reg(r) / 256 % 256,
            Operand::Imm(n) => n,
            Operand::Mem(p) => self.load(self.address(p), w.bytes()),
        }
    }

    // Writes the low part of a register.
    #[tactic(auto, unfolding(crate::specs::Access::write))]
    pub(crate) fn set_part(&mut self, w: Width, r: u8, value: u64)
        requires { r < 16 }
        ensures { state_of self.new ≡ write (state_of self.old) w (Operand.Reg r) value }
    {
        self.set_reg(r, merged(w, self.reg(r), value));
    }

    // Writes bits 8 to 15 of a register.
    #[tactic(auto, unfolding(crate::specs::Access::write))]
    fn set_high(&mut self, w: Width, r: u8, value: u64)
        requires { r < 4 }
        ensures { state_of self.new ≡ write (state_of self.old) w (Operand.High r) value }
    {
        self.set_reg(r, merged_high(self.reg(r), value));
    }

    // Writes a number to an operand that is no place in memory.
    #[tactic(auto, unfolding(crate::specs::Access::write))]
    pub(crate) fn write_register(&mut self, w: Width, operand: Operand, value: u64)
        requires names { NamesRegisters operand }
        requires register { is_place operand ≡ false }
        ensures { state_of self.new ≡ write (state_of self.old) w operand value }
    {
        match operand {
            Operand::Reg(r) => self.set_part(w, r, value),
            Operand::High(r) => self.set_high(w, r, value),
            Operand::None | Operand::Imm(_) => (),
            Operand::Mem(_) => unreachable!(),
        }
    }

    // Writes a number to an operand at a width.
    #[tactic(auto, unfolding(crate::specs::Access::write))]
    pub(crate) fn write(&mut self, w: Width, operand: Operand, value: u64) -> Result<(), NoMemory>
        requires { NamesRegisters operand }
        ensures ok { OnOk result (state_of self.new ≡ write (state_of self.old) w operand value) }
        ensures err { OnErr result (state_of self.new ≡ state_of self.old) }
    {
        match operand {
            Operand::Mem(p) => self.store(self.address(p), w.bytes(), value),
            _ => {
                self.write_register(w, operand, value);
                Ok(())
            }
        }
    }
}

#[tactic(auto, unfolding(crate::specs::Access::merged))]
fn merged(w: Width, old: u64, value: u64) -> u64
    ensures { result ≡ merged w old value }
{
    match w {
        Width::W8 | Width::W16 => old - cut(w, old) + cut(w, value),
        Width::W32 | Width::W64 => cut(w, value),
    }
}

#[tactic(auto, unfolding(crate::specs::Access::merged_high))]
fn merged_high(old: u64, value: u64) -> u64
    ensures { result ≡ merged_high old value }
{
    old - old % 0x1_0000 + value % 0x100 * 0x100 + old % 0x100
}
