ghost use Rattle.std.specs.Prelude.{◌≡◌, ◌↔◌, IsTrue};
ghost use Rattle.std.specs.List.{list_any};
ghost use Rattle.simulation_example.specs.Predicate.{forget_term, forget, step_of};
ghost use Rattle.simulation_example.specs.Predicate.{is_cell, after_of, entry_pred};
ghost use Rattle.simulation_example.specs.Predicate.{Covers, Entails, Returns, KeepsHold};

use crate::machine::Instr;

/// What is known of a register: an entry value, the value that a site named, or nothing.
#[derive(Clone, Copy, PartialEq, Eq)]
pub enum Term {
    /// The value of rax at the entry of the function.
    EntryRax,
    /// The value of rbx at the entry of the function.
    EntryRbx,
    /// The value last named by the site at this address.
    Name(u64),
    /// Nothing is known.
    Unknown,
}

/// A word of memory, by its distance above the stack pointer at the entry, modulo 2^64.
#[derive(Clone, Copy)]
pub struct Region {
    pub offset: u64,
}

/// What is known at a vertex, beside the registers that no instruction here changes.
#[derive(Clone, Copy)]
pub struct Pred {
    pub rax: Term,
    pub rbx: Term,
    /// Whether the word at the entry's stack pointer is the return address.
    pub cell: bool,
}

impl Term {
    /// The term, unless it is the name of the site at the address.
    pub fn forget(self, address: u64) -> Term
        ensures { result ≡ forget_term address self }
    {
        match self {
            Term::Name(named) if named == address => Term::Unknown,
            _ => self,
        }
    }

    /// Whether a register with this term has the other term too.
    pub fn covers(self, weaker: Term) -> bool
        ensures { IsTrue result ↔ Covers self weaker }
    {
        weaker == Term::Unknown || weaker == self
    }
}

impl Pred {
    /// Whether it is the predicate with which each function begins.
    pub fn is_entry(self) -> bool
        ensures { IsTrue result ↔ (self ≡ entry_pred) }
    {
        self.rax == Term::EntryRax && self.rbx == Term::EntryRbx && self.cell
    }

    /// The predicate without the facts that mention the name of the site at the address.
    pub fn forget(self, address: u64) -> Pred
        ensures { result ≡ forget address self }
    {
        Pred {
            rax: self.rax.forget(address),
            rbx: self.rbx.forget(address),
            cell: self.cell,
        }
    }

    /// What holds after an ordinary instruction at the address.
    pub fn step(self, address: u64, instr: Instr) -> Pred
        ensures { result ≡ step_of address instr self }
    {
        let kept = self.forget(address);
        match instr {
            Instr::Draw => Pred {
                rax: Term::Name(address),
                ..kept
            },
            Instr::Swap => Pred {
                rax: kept.rbx,
                rbx: kept.rax,
                ..kept
            },
            _ => kept,
        }
    }

    /// What holds after a call or a syscall at the address whose callee keeps the regions.
    pub fn after(self, address: u64, keeps: &[Region]) -> Pred
        ensures { result ≡ after_of address keeps.now self }
    {
        Pred {
            rax: Term::Name(address),
            rbx: self.rbx.forget(address),
            cell: self.cell & keeps_cell(keeps),
        }
    }

    /// Whether the other predicate holds wherever this one does.
    pub fn entails(self, weaker: Pred) -> bool
        ensures { IsTrue result ↔ Entails self weaker }
    {
        self.rax.covers(weaker.rax) && self.rbx.covers(weaker.rbx) && (self.cell || !weaker.cell)
    }

    /// Whether a return is verified: rbx and the return address are those of the entry.
    pub fn returns(self) -> bool
        ensures { IsTrue result ↔ Returns self }
    {
        self.cell && self.rbx == Term::EntryRbx
    }

    /// Whether each region is the word of the return address, which has its value.
    pub fn keeps_hold(self, keeps: &[Region]) -> bool
        ensures { IsTrue result ↔ KeepsHold keeps.now self }
    {
        keeps.iter().all(|region| region.offset == 0 && self.cell)
    }
}

/// Whether one of the regions is the word of the return address.
fn keeps_cell(keeps: &[Region]) -> bool
    ensures { result ≡ list_any is_cell keeps.now }
{
    keeps.iter().any(|region| region.offset == 0)
}
