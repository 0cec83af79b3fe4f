// The table rule: which numbers a load gives that neither fixed bytes nor a cell tell, by a bound of its index; and where a
// jump leads by a bound.
ghost use Rattle.std.specs.Prelude.{◌≡◌, ◌≤◌, ◌∷◌, [], IfOk, IfSome, IsTrue, OnOk, Some, is_some, not};
ghost use Rattle.std.specs.Option.{option_map, option_copied};
ghost use Rattle.std.specs.Vec.{vec_items};
ghost use Rattle.sym_terms.specs.Normal.{times};
ghost use Rattle.jump_tables.specs.Table.{is_entry_size};
ghost use Rattle.bits_core.specs.Width.{bytes_of};
ghost use Rattle.step_rules.specs.Names.{name_term};
ghost use Rattle.step_rules.specs.Access.{bytes_term};
ghost use Rattle.step_rules.specs.Bounds.{with_bound};
ghost use Rattle.step_rules.specs.Tables.{choice_by, choice_among, choice_of, chosen, values_of, chosen_values, loaded_values, takes_entry, table_of, with_values, targets_of, chosen_targets};
ghost use Rattle.step_values.specs.Ordered.{is_ordered, are_ordered};
ghost use Rattle.step_values.specs.Views.{view_of};
ghost use Rattle.step_effects.specs.Chosen.{plain_choice};

use crate::bounds::with_bound;
use bits_core::Width;
use elf_image::Image;
use jump_tables::{table_values, targets};
use mem_forest::Region;
use predicates::{Bound, SiteView, Values};
use sqlite_items::Items;
use std::alloc::Global;
use step_values::{After, is_low_register, name};
use sym_terms::{NoMemory, Term};
use x86_instr::Instr;

/// The entries of a table that a load may take: where the table begins, how many bytes its entries lie apart, and the first
/// and the last of them.
#[derive(Clone, Copy)]
pub struct Choice {
    pub base: u64,
    pub scale: u64,
    pub low: u64,
    pub high: u64,
}

// A multiple has no more nodes than its term.
#[tactic(auto, using(crate::proofs::TableLemmas::times_within))]
fn scaled(alloc: Global, key: &Term, k: u64) -> Result<Option<Term>, NoMemory>
    ensures { IfOk result (λ t. t ≡ Some (times k key.now)) }
{
    key.as_sum();
    key.scale(alloc, k)
}

fn choice_by(
    alloc: Global,
    at: &Term,
    key: &Term,
    low: u64,
    high: u64,
    scale: u64,
) -> Result<Option<Choice>, NoMemory>
    requires { low ≤ high }
    ensures value { IfOk result (λ o. option_map plain_choice o ≡ choice_by at.now key.now low high scale) }
    ensures ordered { IfOk result (λ o. IfSome o (λ c. c.low ≤ c.high)) }
{
    match scaled(alloc, key, scale)? {
        Some(scaled) => match at.offset_from(&scaled) {
            Some(base) => Ok(Some(Choice {
                base,
                scale,
                low,
                high,
            })),
            None => Ok(None),
        },
        None => Ok(None),
    }
}

// The entries by the first scale of 1, 2, 4 and 8 bytes that fits.
fn choice_among(
    alloc: Global,
    at: &Term,
    key: &Term,
    low: u64,
    high: u64,
) -> Result<Option<Choice>, NoMemory>
    requires { low ≤ high }
    ensures value { IfOk result (λ o. option_map plain_choice o ≡ choice_among at.now key.now low high (1 ∷ 2 ∷ 4 ∷ 8 ∷ [])) }
    ensures ordered { IfOk result (λ o. IfSome o (λ c. c.low ≤ c.high)) }
{
    for scale in [1, 2, 4, 8] {
        let choice = choice_by(alloc, at, key, low, high, scale)?;
        if choice.is_some() {
            return Ok(choice);
        }
    }
    Ok(None)
}

fn choice_of(alloc: Global, at: &Term, bound: &Bound) -> Result<Option<Choice>, NoMemory>
    requires { IsTrue (is_ordered bound.now.set) }
    ensures value { IfOk result (λ o. option_map plain_choice o ≡ choice_of at.now bound.now.key bound.now.set) }
    ensures ordered { IfOk result (λ o. IfSome o (λ c. c.low ≤ c.high)) }
{
    match &bound.set {
        Values::Range(low, high) => choice_among(alloc, at, &bound.key, *low, *high),
        Values::OneOf(_) => Ok(None),
    }
}

// The entries that the first bound that can chooses.
fn chosen(alloc: Global, at: &Term, bounds: &[Bound]) -> Result<Option<Choice>, NoMemory>
    requires { IsTrue (are_ordered bounds.now) }
    ensures value { IfOk result (λ o. option_map plain_choice o ≡ chosen at.now bounds.now) }
    ensures ordered { IfOk result (λ o. IfSome o (λ c. c.low ≤ c.high)) }
{
    for bound in bounds {
        let choice = choice_of(alloc, at, bound)?;
        if choice.is_some() {
            return Ok(choice);
        }
    }
    Ok(None)
}

#[tactic(auto, using(crate::proofs::TableLemmas::entry_size_of, crate::proofs::TableLemmas::width_again))]
fn values_of(
    alloc: Global,
    image: &Image,
    w: Width,
    signed: bool,
    choice: Choice,
) -> Result<Option<Vec<u64>>, NoMemory>
    requires { choice.low ≤ choice.high }
    ensures { IfOk result (λ r. option_map vec_items r ≡ values_of image.now w signed (plain_choice choice)) }
{
    let Choice {
        base,
        scale,
        low,
        high,
    } = choice;
    table_values(alloc, image, base, scale, low, high, w.bytes(), signed)
}

fn chosen_values(
    alloc: Global,
    image: &Image,
    at: &Term,
    w: Width,
    signed: bool,
    bounds: &[Bound],
) -> Result<Option<Vec<u64>>, NoMemory>
    requires { IsTrue (are_ordered bounds.now) }
    ensures { IfOk result (λ r. option_map vec_items r ≡ chosen_values image.now at.now w signed bounds.now) }
{
    match chosen(alloc, at, bounds)? {
        Some(choice) => values_of(alloc, image, w, signed, choice),
        None => Ok(None),
    }
}

// Whether fixed bytes or a cell with a value give the bytes of a region of a width.
fn has_bytes(
    after: &After,
    alloc: Global,
    v: &SiteView,
    w: Width,
    region: &Region,
) -> Result<bool, NoMemory>
    requires { region.now.bytes ≡ bytes_of w }
    ensures { IfOk result (λ b. b ≡ is_some (bytes_term (view_of v.now) after.now.forest (bytes_of w) (Some region.now.at))) }
{
    let bytes = after.bytes(alloc, v, w, region)?;
    Ok(bytes.get().is_some())
}

fn region_values(
    after: &After,
    alloc: Global,
    v: &SiteView,
    w: Width,
    signed: bool,
    region: &Region,
) -> Result<Option<Vec<u64>>, NoMemory>
    requires { region.now.bytes ≡ bytes_of w }
    ensures { IfOk result (λ r. option_map vec_items r ≡ loaded_values (view_of v.now) after.now w signed (Some region.now.at)) }
{
    if has_bytes(after, alloc, v, w, region)? {
        Ok(None)
    } else {
        let image = v.context.image;
        chosen_values(alloc, image, &region.at, w, signed, after.bounds())
    }
}

/// The numbers of which a load from an address gives one, where neither fixed bytes nor a cell with a value give it.
pub fn loaded_values(
    after: &After,
    alloc: Global,
    v: &SiteView,
    w: Width,
    signed: bool,
    at: Option<Term>,
) -> Result<Option<Vec<u64>>, NoMemory>
    ensures { IfOk result (λ r. option_map vec_items r ≡ loaded_values (view_of v.now) after.now w signed at) }
{
    match at {
        Some(at) => {
            let region = Region {
                at,
                bytes: w.bytes(),
            };
            region_values(after, alloc, v, w, signed, &region)
        }
        None => Ok(None),
    }
}

fn takes_entry(signed: bool, w: Width) -> bool
    ensures { result ≡ takes_entry signed w }
{
    match w {
        Width::W8 | Width::W16 => false,
        Width::W32 => !signed,
        Width::W64 => true,
    }
}

/// The numbers of which the second operand is one, at a load into a register that an entry of a table fills.
pub(crate) fn table_of(
    after: &After,
    alloc: Global,
    v: &SiteView,
    i: &Instr,
    signed: bool,
) -> Result<Option<Vec<u64>>, NoMemory>
    ensures { IfOk result (λ r. option_map vec_items r ≡ table_of (view_of v.now) i.now after.now signed) }
{
    if takes_entry(signed, i.width) && is_low_register(&i.dst) {
        let at = after.address_of(alloc, &i.src)?;
        loaded_values(after, alloc, v, i.src_width, signed, at)
    } else {
        Ok(None)
    }
}

// The bounds with values of the site's name.
fn with_name(
    after: &After,
    alloc: Global,
    i: &Instr,
    set: &Values,
) -> Result<Items<Bound>, NoMemory>
    requires { IsTrue (is_ordered set.now) }
    ensures value { IfOk result (λ b. b ≡ with_bound (name_term i.now) set.now after.now.bounds) }
    ensures ordered { IfOk result (λ b. IsTrue (are_ordered b)) }
{
    let key = name(alloc, i)?;
    with_bound(alloc, &key, set, after.bounds())
}

/// The site's name is one of the numbers; where 16 bounds stand that is not added.
pub fn with_values(
    after: &mut After,
    alloc: Global,
    i: &Instr,
    numbers: Vec<u64>,
) -> Result<(), NoMemory>
    ensures { OnOk result (after.new ≡ with_values i.now numbers.items after.old) }
{
    let set = Values::OneOf(Items::from_vec(numbers));
    let bounds = with_name(after, alloc, i, &set)?;
    after.set_bounds(bounds);
    Ok(())
}

fn targets_of(
    alloc: Global,
    image: &Image,
    jump: &Term,
    bound: &Bound,
) -> Result<Option<Vec<u64>>, NoMemory>
    ensures { IfOk result (λ r. option_map vec_items r ≡ targets_of image.now jump.now bound.now.key bound.now.set) }
{
    match &bound.set {
        Values::Range(_, _) => Ok(None),
        Values::OneOf(numbers) => targets(alloc, image, jump, &bound.key, numbers.as_slice()),
    }
}

/// The targets of a jump, by the first bound that tells them.
pub fn chosen_targets(
    alloc: Global,
    image: &Image,
    jump: &Term,
    bounds: &[Bound],
) -> Result<Option<Vec<u64>>, NoMemory>
    ensures { IfOk result (λ r. option_map vec_items r ≡ chosen_targets image.now jump.now bounds.now) }
{
    for bound in bounds {
        let targets = targets_of(alloc, image, jump, bound)?;
        if targets.is_some() {
            return Ok(targets);
        }
    }
    Ok(None)
}
