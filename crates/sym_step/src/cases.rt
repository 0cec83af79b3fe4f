// Where every instruction leads, and what is known there.
ghost use Rattle.std.specs.Prelude.{◌≡◌, ◌<◌, ◌≤◌, ◌∷◌, ◌++◌, [], IfOk, IfSome, OnOk, Some, length, map, slice_get};
ghost use Rattle.std.specs.Option.{option_copied, option_map, IsSomeAnd};
ghost use Rattle.std.specs.Vec.{vec_items};
ghost use Rattle.predicates.specs.Missing.{missing};
ghost use Rattle.x86_instr.specs.Fits.{InForm};
ghost use Rattle.step_rules.specs.View.{parted};
ghost use Rattle.step_rules.specs.Executed.{executed};
ghost use Rattle.step_rules.specs.Cases.{aliased, goes_on, jump_cases, cases};
ghost use Rattle.step_rules.specs.Drop.{dropped};
ghost use Rattle.step_values.specs.Views.{view_of};
ghost use Rattle.sym_step.specs.Led.{bounded, led_cases, others};

use crate::calls::{dropped, next_address, returned};
use crate::jumps::{branches, jumps};
use mem_forest::{Context, Region};
use predicates::{Bound, Conjunct, Pred, SiteView};
use sqlite_items::Items;
use std::alloc::{AllocError, Global};
use std::marker::Model;
use step_effects::executed;
use step_values::After;
use sym_terms::NoMemory;
use x86_instr::{Class, Instr, Op};

/// Where an instruction leads, and how its cases share what is known.
#[derive(Drop)]
pub enum Led<'p> {
    /// Nowhere: no case.
    Nowhere,
    /// To one address.
    At(u64),
    /// To two, of which the cases differ in their bounds: other ones where those are told.
    Branch(u64, u64, Option<Items<Bound>>, Option<Items<Bound>>),
    /// To one, in several cases: all but the last know these.
    Fork(u64, Vec<After<'p>>),
    /// To each of these, with the same knowledge.
    Each(Vec<u64>),
}

/// The cases of an instruction: the addresses to which it leads, and what is known there.
#[derive(Drop)]
pub struct Cases<'p> {
    led: Led<'p>,
    after: After<'p>,
}

impl<'p> Model for Cases<'p> {
    ghost use Rattle.std.specs.Prelude.{List};
    ghost use Rattle.std.specs.Coded.{coded_list};
    ghost use Rattle.step_rules.specs.Cases.{Case};

    ghost Value = { List Case };

    ghost use Rattle.sym_step.specs.Led.{coded_case, led_cases};

    ghost coded = { coded_list coded_case };

    ghost view = { λ c. led_cases c.led c.after };
}

impl<'p> Cases<'p> {
    /// The cases of an instruction; `None` exactly where it is an indirect jump of which isn't known where it leads.
    pub fn of(
        alloc: Global,
        v: &SiteView,
        i: &Instr,
        p: &'p Pred,
    ) -> Result<Option<Cases<'p>>, NoMemory>
        requires { InForm i.now }
        ensures { IfOk result (λ r. r ≡ cases (view_of v.now) i.now p.now) }
    {
        let mut after = dropped(alloc, i, p)?;
        match led_of(&mut after, alloc, v, i, p) {
            Ok(Some(led)) => Ok(Some(Cases { led, after })),
            Ok(None) => Ok(None),
            Err(e) => Err(e),
        }
    }

    /// The number of cases.
    #[tactic(auto, using(crate::proofs::CaseLemmas::length_with_last))]
    pub fn len(&self) -> usize
        ensures { result ≡ length self.now }
    {
        match &self.led {
            Led::Nowhere => 0,
            Led::At(_) => 1,
            Led::Branch(_, _, _, _) => 2,
            Led::Fork(_, others) => others.len() + 1,
            Led::Each(addresses) => addresses.len(),
        }
    }

    /// The address to which a case leads.
    pub fn address(&self, case: usize) -> u64
        requires { case < length self.now }
        ensures { IfSome (slice_get self.now case) (λ c. result ≡ c.address) }
    {
        match &self.led {
            Led::Nowhere => 0,
            Led::At(address) => *address,
            Led::Branch(taken, passed, _, _) => { if case == 0 { *taken } else { *passed } }
            Led::Fork(address, _) => *address,
            Led::Each(addresses) => addresses[case],
        }
    }

    /// The first conjunct of `q` that a case lacks, `None` where it entails `q`; takes no memory.
    #[tactic(auto, using(crate::proofs::CaseLemmas::length_with_last))]
    pub fn first_missing(&self, case: usize, q: &Pred) -> Option<Conjunct>
        requires { case < length self.now }
        ensures { IfSome (slice_get self.now case) (λ c. result ≡ missing c.pred q.now) }
    {
        match &self.led {
            Led::Nowhere => None,
            Led::At(_) => self.after.first_missing(q),
            Led::Branch(_, _, holding, failing) => {
                if case == 0 {
                    missing_with(&self.after, holding.as_ref(), q)
                } else {
                    missing_with(&self.after, failing.as_ref(), q)
                }
            }
            Led::Fork(_, others) => known_in(others.as_slice(), &self.after, case).first_missing(q),
            Led::Each(_) => self.after.first_missing(q),
        }
    }
}

// What is known in a case, of all but the last and of the last.
fn known_in<'a, 'p>(others: &'a [After<'p>], last: &'a After<'p>, case: usize) -> &'a After<'p>
    requires { case ≤ length others.now }
    ensures { slice_get (others.now ++ last.now ∷ []) case ≡ Some result.now }
{
    if case < others.len() {
        &others[case]
    } else {
        last
    }
}

fn missing_with(after: &After, bounds: Option<&Items<Bound>>, q: &Pred) -> Option<Conjunct>
    ensures { result ≡ missing (bounded after.now (option_copied bounds.entry)) q.now }
{
    match bounds {
        Some(bounds) => after.first_missing_with(bounds.as_slice(), q),
        None => after.first_missing(q),
    }
}

fn region_copy(alloc: Global, region: &Region) -> Result<Region, NoMemory>
    ensures { IfOk result (λ r. r ≡ region.now) }
{
    let at = region.at.copy(alloc)?;
    Ok(Region {
        at,
        bytes: region.bytes,
    })
}

fn pair_copy(alloc: Global, pair: &(Region, Region)) -> Result<(Region, Region), NoMemory>
    ensures { IfOk result (λ q. q ≡ pair.now) }
{
    let (region, other) = pair;
    let region = region_copy(alloc, region)?;
    let other = region_copy(alloc, other)?;
    Ok((region, other))
}

// The pairs with one more in front.
fn pairs_with(
    alloc: Global,
    pair: &(Region, Region),
    pairs: &[(Region, Region)],
) -> Result<Vec<(Region, Region)>, NoMemory>
    ensures { IfOk result (λ out. out.items ≡ pair.now ∷ pairs.now) }
{
    let mut out = Vec::new(alloc);
    out.push(pair_copy(alloc, pair)?).map_err(AllocError::from)?;
    for other in pairs {
        out.push(pair_copy(alloc, other)?)
            .map_err(AllocError::from)?;
    }
    Ok(out)
}

// After an instruction that goes on, where the first region's address is one more name of the second's cell.
fn step_aliased(
    after: &mut After,
    alloc: Global,
    v: &SiteView,
    i: &Instr,
    pair: &(Region, Region),
) -> Result<(), NoMemory>
    ensures { OnOk result (after.new ≡ executed i.now.op (view_of v.now) i.now (aliased after.old pair.now)) }
{
    let (region, other) = pair;
    after.alias(alloc, region, other)?;
    executed(after, alloc, v, i)
}

// After an instruction that goes on, where one more pair is separate.
fn step_parted(
    after: &mut After,
    alloc: Global,
    v: &SiteView,
    i: &Instr,
    pair: &(Region, Region),
) -> Result<(), NoMemory>
    ensures { OnOk result (after.new ≡ executed i.now.op (parted (view_of v.now) pair.now) i.now after.old) }
{
    let seps = pairs_with(alloc, pair, v.context.seps)?;
    let parted = SiteView {
        context: Context {
            image: v.context.image,
            below: v.context.below,
            above: v.context.above,
            seps: seps.as_slice(),
        },
        fork: v.fork,
        keeps: v.keeps,
    };
    executed(after, alloc, &parted, i)
}

fn push_aliased<'p>(
    known: &mut Vec<After<'p>>,
    alloc: Global,
    v: &SiteView,
    i: &Instr,
    p: &'p Pred,
    pair: &(Region, Region),
) -> Result<(), NoMemory>
    ensures { OnOk result (known.new.items ≡ known.old.items ++ executed i.now.op (view_of v.now) i.now (aliased (dropped i.now p.now) pair.now) ∷ []) }
{
    let mut after = dropped(alloc, i, p)?;
    step_aliased(&mut after, alloc, v, i, pair)?;
    known.push(after).map_err(AllocError::from)?;
    Ok(())
}

fn push_parted<'p>(
    known: &mut Vec<After<'p>>,
    alloc: Global,
    v: &SiteView,
    i: &Instr,
    p: &'p Pred,
    pair: &(Region, Region),
) -> Result<(), NoMemory>
    ensures { OnOk result (known.new.items ≡ known.old.items ++ executed i.now.op (parted (view_of v.now) pair.now) i.now (dropped i.now p.now) ∷ []) }
{
    let mut after = dropped(alloc, i, p)?;
    step_parted(&mut after, alloc, v, i, pair)?;
    known.push(after).map_err(AllocError::from)?;
    Ok(())
}

// What is known after an instruction that goes on where a pair's regions are one, and where they are separate.
fn push_others<'p>(
    known: &mut Vec<After<'p>>,
    alloc: Global,
    v: &SiteView,
    i: &Instr,
    p: &'p Pred,
    pair: &(Region, Region),
) -> Result<(), NoMemory>
    ensures { OnOk result (known.new.items ≡ known.old.items ++ others (view_of v.now) i.now p.now pair.now) }
{
    push_aliased(known, alloc, v, i, p, pair)?;
    push_parted(known, alloc, v, i, p, pair)
}

fn others_of<'p>(
    alloc: Global,
    v: &SiteView,
    i: &Instr,
    p: &'p Pred,
    pair: &(Region, Region),
) -> Result<Vec<After<'p>>, NoMemory>
    ensures { IfOk result (λ known. known.items ≡ others (view_of v.now) i.now p.now pair.now) }
{
    let mut known = Vec::new(alloc);
    match push_others(&mut known, alloc, v, i, p, pair) {
        Ok(()) => Ok(known),
        Err(e) => Err(e),
    }
}

fn goes_on<'p>(
    after: &mut After,
    alloc: Global,
    v: &SiteView,
    i: &Instr,
    p: &'p Pred,
) -> Result<Led<'p>, NoMemory>
    requires { after.old ≡ dropped i.now p.now }
    ensures { IfOk result (λ l. led_cases l after.new ≡ goes_on (view_of v.now) i.now (dropped i.now p.now) (view_of v.now).fork) }
{
    executed(after, alloc, v, i)?;
    match v.fork {
        Some(pair) => Ok(Led::Fork(next_address(i), others_of(alloc, v, i, p, pair)?)),
        None => Ok(Led::At(next_address(i))),
    }
}

fn jump_cases<'p>(
    after: &mut After,
    alloc: Global,
    v: &SiteView,
    i: &Instr,
) -> Result<Option<Led<'p>>, NoMemory>
    ensures { IfOk result (λ r. option_map (λ l. led_cases l after.new) r ≡ jump_cases i.now.op (view_of v.now) i.now after.old) }
{
    match i.op {
        Op::Jcc => Ok(Some(branches(after, alloc, i)?)),
        Op::Jmp => jumps(after, alloc, v, i),
        _ => Ok(None),
    }
}

// Where an instruction leads, from what is known without its site's old name; then what its last case knows.
fn led_of<'p>(
    after: &mut After,
    alloc: Global,
    v: &SiteView,
    i: &Instr,
    p: &'p Pred,
) -> Result<Option<Led<'p>>, NoMemory>
    requires { after.old ≡ dropped i.now p.now }
    ensures { IfOk result (λ r. option_map (λ l. led_cases l after.new) r ≡ cases (view_of v.now) i.now p.now) }
{
    match i.op.class() {
        Class::Calculation | Class::Transfer | Class::Division => {
            Ok(Some(goes_on(after, alloc, v, i, p)?))
        }
        Class::Jump => jump_cases(after, alloc, v, i),
        Class::Call | Class::SystemCall => {
            returned(after, alloc, v, i)?;
            Ok(Some(Led::At(next_address(i))))
        }
        Class::Return | Class::Stop => Ok(Some(Led::Nowhere)),
    }
}

/// The addresses to which an instruction leads, one a case; `None` exactly where it is an indirect jump of which isn't known
/// where it leads.
pub fn case_addresses(
    alloc: Global,
    v: &SiteView,
    i: &Instr,
    p: &Pred,
) -> Result<Option<Vec<u64>>, NoMemory>
    requires { InForm i.now }
    ensures { IfOk result (λ r. option_map vec_items r ≡ option_map (map (λ c. c.address)) (cases (view_of v.now) i.now p.now)) }
{
    let cases = Cases::of(alloc, v, i, p)?;
    known_addresses(alloc, cases.as_ref())
}

fn known_addresses(alloc: Global, cases: Option<&Cases>) -> Result<Option<Vec<u64>>, NoMemory>
    ensures { IfOk result (λ r. option_map vec_items r ≡ option_map (map (λ c. c.address)) (option_copied cases.entry)) }
{
    match cases {
        Some(cases) => some_addresses(alloc, cases),
        None => Ok(None),
    }
}

fn some_addresses(alloc: Global, cases: &Cases) -> Result<Option<Vec<u64>>, NoMemory>
    ensures { IfOk result (λ r. option_map vec_items r ≡ Some (map (λ c. c.address) cases.now)) }
{
    let addresses = addresses(alloc, cases)?;
    Ok(Some(addresses))
}

#[tactic(auto, using(crate::proofs::CaseLemmas::one_more))]
fn addresses(alloc: Global, cases: &Cases) -> Result<Vec<u64>, NoMemory>
    ensures { IfOk result (λ out. out.items ≡ map (λ c. c.address) cases.now) }
{
    let mut out = Vec::new(alloc);
    for case in 0..cases.len() {
        out.push(cases.address(case)).map_err(AllocError::from)?;
    }
    Ok(out)
}

/// The first conjunct of `q` that a case of the instruction lacks, `None` where it entails `q`. The case is one of those that
/// there are.
pub fn holds_edge(
    alloc: Global,
    v: &SiteView,
    i: &Instr,
    p: &Pred,
    case: u32,
    q: &Pred,
) -> Result<Option<Conjunct>, NoMemory>
    requires form { InForm i.now }
    requires case { IsSomeAnd (cases (view_of v.now) i.now p.now) (λ cs. case < length cs) }
    ensures { IfOk result (λ m. IfSome (cases (view_of v.now) i.now p.now) (λ cs. IfSome (slice_get cs case) (λ c. m ≡ missing c.pred q.now))) }
{
    let cases = Cases::of(alloc, v, i, p)?;
    Ok(missing_in(cases.as_ref(), case as usize, q))
}

fn missing_in(cases: Option<&Cases>, case: usize, q: &Pred) -> Option<Conjunct>
    requires { IsSomeAnd (option_copied cases) (λ cs. case < length cs) }
    ensures { IfSome (option_copied cases.entry) (λ cs. IfSome (slice_get cs case) (λ c. result ≡ missing c.pred q.now)) }
{
    match cases {
        Some(cases) => cases.first_missing(case, q),
        None => None,
    }
}
