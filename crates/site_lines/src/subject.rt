// What is lifted.
ghost use Rattle.std.specs.Prelude.{◌≡◌, [], None};
ghost use Rattle.memory_regions.specs.Context.{known};
ghost use Rattle.pred_moves.specs.Views.{view_of};
ghost use Rattle.site_lines.specs.Kinds.{bare_view, is_inside, is_jump, is_shut_at};
ghost use Rattle.site_lines.specs.Subject.{bare, is_indirect, is_listed, is_shut, subject_of};

use elf_image::Image;
use instr_at::instr_at;
use mem_forest::Context;
use predicates::SiteView;
use x86_instr::{Class, Instr, Operand};

/// The bytes below the entry's stack pointer that a lifted function has as its frame.
pub const FRAME_BELOW: u64 = 65_536;

/// The bytes above it.
pub const FRAME_ABOVE: u64 = 4_096;

/// An executable, the addresses that are taken to lie outside, and the indirect jumps that are open, by their addresses.
#[derive(Clone, Copy)]
pub struct Program<'a> {
    pub image: &'a Image,
    pub externs: &'a [u64],
    pub opened: &'a [u64],
}

impl<'a> Program<'a> {
    /// What is assumed at a site without a pair.
    pub(crate) fn bare(&self) -> Context<'a>
        ensures { known result ≡ bare self.now.image.now }
    {
        Context {
            image: self.image,
            below: FRAME_BELOW,
            above: FRAME_ABOVE,
            seps: &[],
        }
    }

    /// What is known of a site without lines.
    pub fn bare_view(&self) -> SiteView<'a>
        ensures { view_of result ≡ bare_view self.now.image.now }
    {
        SiteView {
            context: self.bare(),
            fork: None,
            keeps: &[],
        }
    }

    /// Whether an address is taken to lie outside.
    pub(crate) fn is_extern(&self, address: u64) -> bool
        ensures { result ≡ is_listed address self.now.externs.now }
    {
        is_listed(address, self.externs)
    }

    /// Whether a function is lifted at an address: it is code, and not outside.
    pub(crate) fn is_inside(&self, address: u64) -> bool
        ensures { result ≡ is_inside (subject_of self.now) address }
    {
        self.image.is_code(address) && !self.is_extern(address)
    }

    /// Whether a shut jump stands at an address, which isn't outside.
    pub fn is_shut_at(&self, address: u64) -> bool
        ensures { result ≡ is_shut_at (subject_of self.now) address }
    {
        if self.is_extern(address) {
            return false;
        }
        match instr_at(self.image, address) {
            Some(i) => is_jump(i.op.class()) && self.is_shut(address, &i),
            None => false,
        }
    }

    /// Whether the jump at an address goes to what its operand holds, and isn't open.
    pub(crate) fn is_shut(&self, address: u64, i: &Instr) -> bool
        ensures { result ≡ is_shut (subject_of self.now) address i.now }
    {
        is_indirect(&i.dst) && !is_listed(address, self.opened)
    }
}

fn is_listed(address: u64, addresses: &[u64]) -> bool
    ensures { result ≡ is_listed address addresses.now }
{
    addresses.iter().any(|other| *other == address)
}

fn is_indirect(operand: &Operand) -> bool
    ensures { result ≡ is_indirect operand.now }
{
    match operand {
        Operand::Imm(_) => false,
        Operand::None | Operand::Reg(_) | Operand::High(_) | Operand::Mem(_) => true,
    }
}

fn is_jump(class: Class) -> bool
    ensures { result ≡ is_jump class }
{
    class == Class::Jump
}
