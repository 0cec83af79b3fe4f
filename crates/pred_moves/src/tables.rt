// The table rule: which numbers a load gives that neither fixed bytes nor a cell tell, by a bound of its index; and where a
// jump leads by a bound.
ghost use Rattle.std.specs.Prelude.{◌≡◌, ◌≤◌, ◌∷◌, [], IfOk, IfSome, IsTrue, OnOk, Some, None};
ghost use Rattle.std.specs.Option.{option_map, option_copied};
ghost use Rattle.std.specs.Vec.{vec_items};
ghost use Rattle.sym_terms.specs.Plain.{constant_alone};
ghost use Rattle.sym_terms.specs.Normal.{minus, times};
ghost use Rattle.predicates.specs.Bounds.{are_formed, are_values, is_list};
ghost use Rattle.step_rules.specs.Tables.{choice_among, choice_of, values_of, chosen_values, loaded_values, takes_entry, table_of, with_values, targets_of, chosen_targets};
ghost use Rattle.pred_moves.specs.Views.{view_of};
ghost use Rattle.pred_moves.specs.Entries.{plain_choice};

use crate::access::{address_of, bytes_at};
use crate::bounds::add_bound;
use crate::names::{is_low_register, name};
use bits_core::Width;
use elf_image::Image;
use jump_tables::{table_values, targets};
use predicates::{Bound, Pred, SiteView, Values};
use sqlite_items::Items;
use std::alloc::Global;
use sym_terms::{NoMemory, Term};
use x86_instr::Instr;

/// Entries of a table: the first and the last that are meant, where the table begins, and how many bytes they lie apart.
#[derive(Clone, Copy)]
pub struct Entries {
    pub low: u64,
    pub high: u64,
    pub base: u64,
    pub scale: u64,
}

impl Entries {
    // The numbers of the entries, which have a width, and a sign or none.
    #[tactic(auto, using(crate::proofs::WidthLemmas::entry_of_width, crate::proofs::WidthLemmas::width_of_bytes, crate::proofs::ListLemmas::table_listed))]
    fn values(
        self,
        alloc: Global,
        image: &Image,
        w: Width,
        signed: bool,
    ) -> Result<Option<Vec<u64>>, NoMemory>
        requires { self.low ≤ self.high }
        ensures value { IfOk result (λ r. option_map vec_items r ≡ values_of image.now w signed (plain_choice self)) }
        ensures listed { IfOk result (λ r. IfSome (option_map vec_items r) (λ ns. IsTrue (is_list ns))) }
    {
        table_values(
            alloc,
            image,
            self.base,
            self.scale,
            self.low,
            self.high,
            w.bytes(),
            signed,
        )
    }
}

// Where the table begins, when the address is a constant after a multiple of the key. A multiple has no more nodes than its
// term.
#[tactic(auto, using(crate::proofs::TermLemmas::multiple_within))]
fn base_by(alloc: Global, at: &Term, key: &Term, scale: u64) -> Result<Option<u64>, NoMemory>
    ensures { IfOk result (λ b. b ≡ constant_alone (minus at.now (times scale key.now))) }
{
    key.as_sum();
    match key.scale(alloc, scale)? {
        Some(multiple) => Ok(at.offset_from(&multiple)),
        None => Ok(None),
    }
}

// The entries that a range chooses of a table, by the first scale that fits, of 1, 2, 4 and 8 bytes.
fn entries_between(
    alloc: Global,
    at: &Term,
    low: u64,
    high: u64,
    key: &Term,
) -> Result<Option<Entries>, NoMemory>
    requires { low ≤ high }
    ensures value { IfOk result (λ e. option_map plain_choice e ≡ choice_among at.now key.now low high (1 ∷ 2 ∷ 4 ∷ 8 ∷ [])) }
    ensures ordered { IfOk result (λ e. IfSome e (λ e. e.low ≤ e.high)) }
{
    for scale in [1, 2, 4, 8] {
        if let Some(base) = base_by(alloc, at, key, scale)? {
            return Ok(Some(Entries {
                low,
                high,
                base,
                scale,
            }));
        }
    }
    Ok(None)
}

fn entries_of(alloc: Global, at: &Term, bound: &Bound) -> Result<Option<Entries>, NoMemory>
    requires { IsTrue (are_values bound.now.set) }
    ensures value { IfOk result (λ e. option_map plain_choice e ≡ choice_of at.now bound.now.key bound.now.set) }
    ensures ordered { IfOk result (λ e. IfSome e (λ e. e.low ≤ e.high)) }
{
    let Values::Range(low, high) = &bound.set else {
        return Ok(None);
    };
    entries_between(alloc, at, *low, *high, &bound.key)
}

// The numbers of the entries that the first bound that can chooses.
fn chosen_values(
    alloc: Global,
    image: &Image,
    bounds: &[Bound],
    at: &Term,
    w: Width,
    signed: bool,
) -> Result<Option<Vec<u64>>, NoMemory>
    requires { IsTrue (are_formed bounds.now) }
    ensures value { IfOk result (λ r. option_map vec_items r ≡ chosen_values image.now at.now w signed bounds.now) }
    ensures listed { IfOk result (λ r. IfSome (option_map vec_items r) (λ ns. IsTrue (is_list ns))) }
{
    for bound in bounds {
        if let Some(entries) = entries_of(alloc, at, bound)? {
            return entries.values(alloc, image, w, signed);
        }
    }
    Ok(None)
}

/// The numbers of which a load from an address gives one, where neither fixed bytes nor a cell with a value give it.
#[tactic(auto, using(crate::proofs::BoundLemmas::bounds_formed))]
pub fn loaded_values(
    alloc: Global,
    v: &SiteView,
    p: &Pred,
    w: Width,
    signed: bool,
    at: Option<&Term>,
) -> Result<Option<Vec<u64>>, NoMemory>
    ensures value { IfOk result (λ r. option_map vec_items r ≡ loaded_values (view_of v.now) p.now w signed (option_copied at.entry)) }
    ensures listed { IfOk result (λ r. IfSome (option_map vec_items r) (λ ns. IsTrue (is_list ns))) }
{
    let Some(at) = at else {
        return Ok(None);
    };
    match bytes_at(alloc, v, p, w, Some(at.copy(alloc)?))? {
        Some(_) => Ok(None),
        None => chosen_values(alloc, v.context.image, p.bounds.as_slice(), at, w, signed),
    }
}

fn takes_entry(signed: bool, w: Width) -> bool
    ensures { result ≡ takes_entry signed w }
{
    match (w, signed) {
        (Width::W64, _) | (Width::W32, false) => true,
        _ => false,
    }
}

/// The numbers of which the second operand is one, at a load into a register that an entry of a table fills.
pub fn table_of(
    alloc: Global,
    v: &SiteView,
    i: &Instr,
    p: &Pred,
    signed: bool,
) -> Result<Option<Vec<u64>>, NoMemory>
    ensures value { IfOk result (λ r. option_map vec_items r ≡ table_of (view_of v.now) i.now p.now signed) }
    ensures listed { IfOk result (λ r. IfSome (option_map vec_items r) (λ ns. IsTrue (is_list ns))) }
{
    if takes_entry(signed, i.width) && is_low_register(&i.dst) {
        let at = address_of(alloc, p, &i.src)?;
        loaded_values(alloc, v, p, i.src_width, signed, at.as_ref())
    } else {
        Ok(None)
    }
}

/// The site's name is one of the numbers; where 16 bounds stand that is not added.
pub fn add_values(alloc: Global, i: &Instr, p: &mut Pred, numbers: Vec<u64>) -> Result<(), NoMemory>
    requires { IsTrue (is_list numbers.items) }
    ensures { OnOk result (p.new ≡ with_values i.now numbers.items p.old) }
{
    let key = name(alloc, i)?;
    let set = Values::OneOf(Items::from_vec(numbers));
    add_bound(alloc, &mut p.bounds, &key, &set)
}

fn targets_by(
    alloc: Global,
    image: &Image,
    jump: &Term,
    key: &Term,
    set: &Values,
) -> Result<Option<Vec<u64>>, NoMemory>
    ensures { IfOk result (λ r. option_map vec_items r ≡ targets_of image.now jump.now key.now set.now) }
{
    let Values::OneOf(numbers) = set else {
        return Ok(None);
    };
    targets(alloc, image, jump, key, numbers.as_slice())
}

/// The targets of a jump, by the first bound that tells them.
pub fn chosen_targets(
    alloc: Global,
    image: &Image,
    bounds: &[Bound],
    jump: &Term,
) -> Result<Option<Vec<u64>>, NoMemory>
    ensures { IfOk result (λ r. option_map vec_items r ≡ chosen_targets image.now jump.now bounds.now) }
{
    for bound in bounds {
        if let Some(told) = targets_by(alloc, image, jump, &bound.key, &bound.set)? {
            return Ok(Some(told));
        }
    }
    Ok(None)
}
