ghost use Rattle.std.specs.Prelude.{◌≡◌, ◌↔◌, ◌⊎◌, IsTrue, slice_get};
ghost use Rattle.simulation.specs.World.{Ordinary, Calling, System, Returning};
ghost use Rattle.simulation_example.specs.Machine.{class_of, next_of, target_of};

/// An instruction. It stands at one address, and the next one at the next address.
#[derive(Clone, Copy)]
pub enum Instr {
    /// Does nothing.
    Nop,
    /// Puts a number into rax that the machine leaves open, as `rdtsc` does.
    Draw,
    /// Exchanges rax and rbx.
    Swap,
    /// Goes to the address where rax is 0, else to the next address.
    Branch(u64),
    /// Pushes the next address and goes to the address.
    Call(u64),
    /// Leaves the machine to the system.
    Syscall,
    /// Goes to the address that it pops.
    Ret,
}

/// The code of a program: the instruction at each address from 0 on.
#[derive(Drop)]
pub struct Image {
    pub code: Vec<Instr>,
}

impl Image {
    /// The instruction at an address, if there is one.
    pub fn instr_at(&self, address: u64) -> Option<Instr>
        ensures { result ≡ slice_get self.now.code.items address }
    {
        self.code.get(address as usize).copied()
    }
}

impl Instr {
    /// Whether the next instruction is known from the code alone, or from it and the registers.
    pub fn is_ordinary(self) -> bool
        ensures { IsTrue result ↔ (class_of self ≡ Ordinary) }
    {
        match self {
            Instr::Nop | Instr::Draw | Instr::Swap | Instr::Branch(_) => true,
            Instr::Call(_) | Instr::Syscall | Instr::Ret => false,
        }
    }

    /// Whether it is a call.
    pub fn is_call(self) -> bool
        ensures { IsTrue result ↔ (class_of self ≡ Calling) }
    {
        match self {
            Instr::Call(_) => true,
            _ => false,
        }
    }

    /// Whether it is a call or a syscall.
    pub fn is_call_or_syscall(self) -> bool
        ensures { IsTrue result ↔ (class_of self ≡ Calling) ⊎ (class_of self ≡ System) }
    {
        match self {
            Instr::Call(_) | Instr::Syscall => true,
            _ => false,
        }
    }

    /// Whether it is a return.
    pub fn is_return(self) -> bool
        ensures { IsTrue result ↔ (class_of self ≡ Returning) }
    {
        match self {
            Instr::Ret => true,
            _ => false,
        }
    }

    /// The address to which a call goes.
    #[tactic(auto, unfolding(crate::specs::Machine::target_of))]
    pub fn call_target(self) -> Option<u64>
        ensures { result ≡ target_of self }
    {
        match self {
            Instr::Call(target) => Some(target),
            _ => None,
        }
    }
}

/// The address after an address, modulo 2^64.
pub fn next_address(address: u64) -> u64
    ensures { result ≡ next_of address }
{
    address.wrapping_add(1)
}
