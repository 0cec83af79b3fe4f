// What is known of operands, and what is known after they are written.
ghost use Rattle.std.specs.Prelude.{◌≡◌, IfOk, OnOk, None, Some};
ghost use Rattle.std.specs.Option.{option_copied, option_and_then};
ghost use Rattle.bits_core.specs.Width.{bytes_of};
ghost use Rattle.elf_image.specs.Image.{fixed_of};
ghost use Rattle.sym_terms.specs.declared.kinds.Fit.TheVariants.{Zx8};
ghost use Rattle.sym_terms.specs.declared.kinds.Pair.TheVariants.{Shr};
ghost use Rattle.sym_terms.specs.Plain.{constant_alone};
ghost use Rattle.sym_terms.specs.Normal.{fit, pair};
ghost use Rattle.step_rules.specs.Terms.{number, apply};
ghost use Rattle.step_rules.specs.Names.{register_name};
ghost use Rattle.step_rules.specs.Access.{register, with_register, operand_name, part_term, address_term, address_term_of, store_term, bytes_term, known_term, read_term, loaded_from, after_read, merged_term, with_bytes, write_term};
ghost use Rattle.step_values.specs.Views.{view_of};

use crate::after::After;
use crate::names::{load_name, register_name, store_name};
use crate::slot::Slot;
use crate::terms::{cut, fitted, shifted};
use bits_core::Width;
use mem_forest::Region;
use predicates::SiteView;
use std::alloc::Global;
use sym_terms::{Fit, NoMemory, Pair, Term};
use x86_instr::{Instr, Operand, Place};

/// The number in the fixed bytes of a width at a constant address.
pub fn fixed(v: &SiteView, w: Width, at: &Term) -> Option<u64>
    ensures { result ≡ option_and_then (λ c. fixed_of v.now.context.image.now c (bytes_of w)) (constant_alone at.now) }
{
    match at.as_constant() {
        Some(constant) => v.context.image.fixed(constant, w.bytes()),
        None => None,
    }
}

// The name, where it stands for a register after the step.
fn by_name<'q>(alloc: Global, i: &Instr, r: u8) -> Result<Slot<'q>, NoMemory>
    ensures { IfOk result (λ t. t ≡ register_name i.now r) }
{
    Ok(Slot::made(register_name(alloc, i, r)?))
}

/// The term of a register after a result of a width: 8 and 16 bits keep the rest, so the name has to do.
#[tactic(auto, unfolding(step_rules::specs::Access::merged_term))]
pub fn merged<'p>(
    alloc: Global,
    i: &Instr,
    r: u8,
    w: Width,
    term: Slot<'p>,
) -> Result<Slot<'p>, NoMemory>
    ensures { IfOk result (λ t. t ≡ merged_term i.now r w term.entry) }
{
    match w {
        Width::W8 | Width::W16 => by_name(alloc, i, r),
        Width::W32 | Width::W64 => match term.get() {
            Some(_) => Ok(term),
            None => by_name(alloc, i, r),
        },
    }
}

// Bits 8 to 15 of a term.
fn high_bits(alloc: Global, term: Option<&Term>) -> Result<Option<Term>, NoMemory>
    ensures { IfOk result (λ t. t ≡ apply (fit Zx8) (apply (λ t. pair Shr t (number 8)) (option_copied term.entry))) }
{
    let upper = shifted(alloc, Pair::Shr, term, 8)?;
    fitted(alloc, Fit::Zx8, upper.as_ref())
}

// A load that is known by the site's name alone; no other operand is.
fn operand_name<'q>(
    alloc: Global,
    i: &Instr,
    w: Width,
    operand: &Operand,
) -> Result<Slot<'q>, NoMemory>
    ensures { IfOk result (λ t. t ≡ operand_name i.now w operand.now) }
{
    match operand {
        Operand::Mem(_) => Ok(Slot::made(load_name(alloc, i, w)?)),
        _ => Ok(Slot::unknown()),
    }
}

impl<'p> After<'p> {
    #[tactic(auto, unfolding(step_rules::specs::Access::part_term))]
    fn part<'a>(&'a self, r: Option<u8>, zero: &'a Term) -> Option<&'a Term>
        requires { zero.now ≡ number 0 }
        ensures { option_copied result ≡ part_term self.now r }
    {
        match r {
            Some(r) => self.peek(r),
            None => Some(zero),
        }
    }

    /// The effective address of a place.
    #[tactic(auto, unfolding(step_rules::specs::Access::address_term))]
    pub fn address(&self, alloc: Global, place: &Place) -> Result<Option<Term>, NoMemory>
        ensures { IfOk result (λ t. t ≡ address_term self.now place.now) }
    {
        let zero = Term::constant(alloc, 0);
        match (self.part(place.base, &zero), self.part(place.index, &zero)) {
            (Some(base), Some(index)) => {
                base.place(alloc, u64::from(place.scale), index, place.disp, place.fs)
            }
            _ => Ok(None),
        }
    }

    /// The effective address of an operand in memory.
    #[tactic(auto, unfolding(step_rules::specs::Access::address_term_of))]
    pub fn address_of(&self, alloc: Global, operand: &Operand) -> Result<Option<Term>, NoMemory>
        ensures { IfOk result (λ t. t ≡ address_term_of self.now operand.now) }
    {
        match operand {
            Operand::Mem(place) => self.address(alloc, place),
            _ => Ok(None),
        }
    }

    /// The address of a place, by the site's name where that stands for the address of the store and no more is known.
    pub fn store_address(
        &self,
        alloc: Global,
        i: &Instr,
        place: &Place,
    ) -> Result<Option<Term>, NoMemory>
        ensures { IfOk result (λ t. t ≡ store_term i.now self.now place.now) }
    {
        match self.address(alloc, place)? {
            Some(at) => Ok(Some(at)),
            None => store_name(alloc, i),
        }
    }

    /// The bytes of a region of a width: fixed ones, or those of a cell.
    #[tactic(auto, unfolding(step_rules::specs::Access::bytes_term))]
    pub fn bytes(
        &self,
        alloc: Global,
        v: &SiteView,
        w: Width,
        region: &Region,
    ) -> Result<Slot<'p>, NoMemory>
        requires { region.now.bytes ≡ bytes_of w }
        ensures { IfOk result (λ t. t ≡ bytes_term (view_of v.now) self.now.forest (bytes_of w) (Some region.now.at)) }
    {
        match fixed(v, w, &region.at) {
            Some(n) => Ok(Slot::made(Some(Term::constant(alloc, n)))),
            None => self.memory().value(alloc, region),
        }
    }

    /// The bytes of a width at an address that may be unknown.
    #[tactic(auto, unfolding(step_rules::specs::Access::bytes_term))]
    pub fn bytes_at(
        &self,
        alloc: Global,
        v: &SiteView,
        w: Width,
        at: Option<Term>,
    ) -> Result<Slot<'p>, NoMemory>
        ensures { IfOk result (λ t. t ≡ bytes_term (view_of v.now) self.now.forest (bytes_of w) at) }
    {
        match at {
            Some(at) => {
                let region = Region {
                    at,
                    bytes: w.bytes(),
                };
                self.bytes(alloc, v, w, &region)
            }
            None => Ok(Slot::unknown()),
        }
    }

    // Bits 8 to 15 of a register.
    fn high(&self, alloc: Global, r: u8) -> Result<Slot<'p>, NoMemory>
        ensures { IfOk result (λ t. t ≡ apply (fit Zx8) (apply (λ t. pair Shr t (number 8)) (register self.now r))) }
    {
        Ok(Slot::made(high_bits(alloc, self.peek(r))?))
    }

    /// The operand at a width where no name is needed for a load.
    #[tactic(auto, unfolding(step_rules::specs::Access::known_term))]
    pub fn known(
        &self,
        alloc: Global,
        v: &SiteView,
        i: &Instr,
        w: Width,
        operand: &Operand,
    ) -> Result<Slot<'p>, NoMemory>
        ensures { IfOk result (λ t. t ≡ known_term (view_of v.now) i.now self.now w operand.now) }
    {
        match operand {
            Operand::None => Ok(Slot::unknown()),
            Operand::Reg(r) => cut(alloc, w, self.register(alloc, *r)?),
            Operand::High(r) => self.high(alloc, *r),
            Operand::Imm(n) => Ok(Slot::made(Some(Term::constant(alloc, *n)))),
            Operand::Mem(place) => {
                let at = self.store_address(alloc, i, place)?;
                self.bytes_at(alloc, v, w, at)
            }
        }
    }

    /// The operand at a width; a load by its name where no more is known.
    #[tactic(auto, unfolding(step_rules::specs::Access::read_term))]
    pub fn read(
        &self,
        alloc: Global,
        v: &SiteView,
        i: &Instr,
        w: Width,
        operand: &Operand,
    ) -> Result<Slot<'p>, NoMemory>
        ensures { IfOk result (λ t. t ≡ read_term (view_of v.now) i.now self.now w operand.now) }
    {
        let known = self.known(alloc, v, i, w, operand)?;
        match known.get() {
            Some(_) => Ok(known),
            None => operand_name(alloc, i, w, operand),
        }
    }

    /// After a load of a width from an address that may be unknown.
    pub fn load(
        &mut self,
        alloc: Global,
        v: &SiteView,
        i: &Instr,
        w: Width,
        at: Option<Term>,
    ) -> Result<(), NoMemory>
        ensures { OnOk result (self.new ≡ loaded_from (view_of v.now) i.now self.old w at) }
    {
        match at {
            Some(at) => {
                let region = Region {
                    at,
                    bytes: w.bytes(),
                };
                self.load_region(alloc, v, i, w, &region)
            }
            None => Ok(()),
        }
    }

    // After a load from a region of a width; fixed bytes change nothing.
    fn load_region(
        &mut self,
        alloc: Global,
        v: &SiteView,
        i: &Instr,
        w: Width,
        region: &Region,
    ) -> Result<(), NoMemory>
        requires { region.now.bytes ≡ bytes_of w }
        ensures { OnOk result (self.new ≡ loaded_from (view_of v.now) i.now self.old w (Some region.now.at)) }
    {
        if fixed(v, w, &region.at).is_some() {
            return Ok(());
        }
        self.fill(alloc, v, i, w, region)
    }

    /// After an operand was read at a width.
    #[tactic(auto, unfolding(step_rules::specs::Access::after_read))]
    pub fn note(
        &mut self,
        alloc: Global,
        v: &SiteView,
        i: &Instr,
        w: Width,
        operand: &Operand,
    ) -> Result<(), NoMemory>
        ensures { OnOk result (self.new ≡ after_read (view_of v.now) i.now self.old w operand.now) }
    {
        let at = self.address_of(alloc, operand)?;
        self.load(alloc, v, i, w, at)
    }

    /// After bytes of a width were stored; at an unknown address nothing is known of memory.
    #[tactic(auto, unfolding(step_rules::specs::Access::with_bytes))]
    pub fn store(
        &mut self,
        alloc: Global,
        v: &SiteView,
        w: Width,
        at: Option<Term>,
        term: Option<&Term>,
    ) -> Result<(), NoMemory>
        ensures { OnOk result (self.new ≡ with_bytes (view_of v.now) self.old (bytes_of w) at (option_copied term.entry)) }
    {
        match at {
            Some(at) => {
                let region = Region {
                    at,
                    bytes: w.bytes(),
                };
                self.store_region(alloc, v, w, &region, term)
            }
            None => {
                self.empty_memory(alloc);
                Ok(())
            }
        }
    }

    // After a store to a region of a width.
    #[tactic(auto, unfolding(step_rules::specs::Access::with_bytes))]
    fn store_region(
        &mut self,
        alloc: Global,
        v: &SiteView,
        w: Width,
        region: &Region,
        term: Option<&Term>,
    ) -> Result<(), NoMemory>
        requires { region.now.bytes ≡ bytes_of w }
        ensures { OnOk result (self.new ≡ with_bytes (view_of v.now) self.old (bytes_of w) (Some region.now.at) (option_copied term.entry)) }
    {
        self.put(alloc, v, w, region, term)
    }

    fn write_register(
        &mut self,
        alloc: Global,
        i: &Instr,
        w: Width,
        r: u8,
        term: Slot<'p>,
    ) -> Result<(), NoMemory>
        ensures { OnOk result (self.new ≡ with_register self.old r (merged_term i.now r w term.entry)) }
    {
        let term = merged(alloc, i, r, w, term)?;
        self.set_register(r, term);
        Ok(())
    }

    // After bits 8 to 15 of a register were written.
    fn write_high(&mut self, alloc: Global, i: &Instr, r: u8) -> Result<(), NoMemory>
        ensures { OnOk result (self.new ≡ with_register self.old r (register_name i.now r)) }
    {
        let name = by_name(alloc, i, r)?;
        self.set_register(r, name);
        Ok(())
    }

    fn write_place(
        &mut self,
        alloc: Global,
        v: &SiteView,
        i: &Instr,
        w: Width,
        place: &Place,
        term: Option<&Term>,
    ) -> Result<(), NoMemory>
        ensures { OnOk result (self.new ≡ with_bytes (view_of v.now) self.old (bytes_of w) (store_term i.now self.old place.now) (option_copied term.entry)) }
    {
        let at = self.store_address(alloc, i, place)?;
        self.store(alloc, v, w, at, term)
    }

    /// After a result, which may be unknown, was written to an operand at a width.
    #[tactic(auto, unfolding(step_rules::specs::Access::write_term))]
    pub fn write(
        &mut self,
        alloc: Global,
        v: &SiteView,
        i: &Instr,
        w: Width,
        operand: &Operand,
        term: Slot<'p>,
    ) -> Result<(), NoMemory>
        ensures { OnOk result (self.new ≡ write_term (view_of v.now) i.now self.old w operand.now term.entry) }
    {
        match operand {
            Operand::None | Operand::Imm(_) => Ok(()),
            Operand::Reg(r) => self.write_register(alloc, i, w, *r, term),
            Operand::High(r) => self.write_high(alloc, i, *r),
            Operand::Mem(place) => self.write_place(alloc, v, i, w, place, term.get()),
        }
    }
}
