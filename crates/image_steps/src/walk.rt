// A walk through an executable: what it means to rounds.
ghost use Rattle.std.specs.Prelude.{◌≡◌, ◌↔◌, true, length, map, refl, IfOk, IfSome, IsTrue};
ghost use Rattle.std.specs.List.{All};
ghost use Rattle.std.specs.Option.{option_copied, option_map};
ghost use Rattle.term_bank.specs.Terms.{Grows};
ghost use Rattle.bank_values.specs.ReadBack.{predicate_at};
ghost use Rattle.pred_moves.specs.Views.{view_of};
ghost use Rattle.step_rules.specs.Cases.{cases};
ghost use Rattle.bank_step.specs.CasesAt.{case_at, IsCaseBelow, IsCasePred};
ghost use Rattle.lift_rounds.specs.Known.{IsHeld, case_reading, pred_at, reading};
ghost use Rattle.instr_at.specs.At.{instr_at};
ghost use Rattle.site_lines.specs.Lines.{cases_here, lines_at};
ghost use Rattle.site_lines.specs.Kinds.{is_shut_at};
ghost use Rattle.site_lines.specs.Subject.{subject_of};
ghost use Rattle.image_steps.specs.Meant.{case_of, cases_at, known_among, meaning_of};
ghost use Rattle.image_steps.specs.Tells.{gives_cases, tells, AllPass};
ghost use Rattle.image_steps.specs.Walks.{GoesOn, GoesOnAlike, IsNumbered, subject_at};
ghost use Rattle.image_steps.specs.WalkLaws.{walk_alike, walk_further, walk_has, walk_over, walk_reads, walk_unmoved};
ghost use Rattle.image_steps.specs.FixedLaws.{fixed_at};
ghost use Rattle.image_steps.specs.Laws.{entails_follows, entails_itself, entails_kept, entails_through, weakened_falls};

use crate::reading::preds_at;
use bank_step::{BankPred, cases};
use elf_image::Image;
use instr_at::instr_at;
use lift_openings::Jumps;
use lift_rounds::{Case, Made, Steps};
use no_memory::NoMemory;
use predicates::{Pred, SiteView};
use site_lines::{Lines, Program, lines_at, view_with};
use std::alloc::{AllocError, Global};
use term_bank::Bank;
use x86_instr::Instr;

/// An executable with the addresses that are taken to lie outside and the indirect jumps that are open, and a bank for the
/// terms of what is known.
#[derive(Drop)]
pub struct Walk<'a, B> {
    pub bank: &'a mut B,
    pub image: &'a Image,
    pub externs: &'a [u64],
    pub opened: &'a mut Vec<u64>,
}

/// A program of its parts.
fn program_of<'a>(image: &'a Image, externs: &'a [u64], opened: &'a [u64]) -> Program<'a>
    ensures { subject_of result ≡ record { image = image.now; externs = externs.now; opened = opened.now } }
{
    Program {
        image,
        externs,
        opened,
    }
}

impl<'a, B> Walk<'a, B> {
    /// What is lifted.
    pub fn program(&self) -> Program<'_>
        ensures { subject_of result ≡ subject_at self.now }
    {
        program_of(self.image, self.externs, self.opened.as_slice())
    }
}

/// Want of memory, as rounds have it.
fn refused(_fault: NoMemory) -> AllocError {
    AllocError
}

/// Cases as rounds have them.
fn as_cases(alloc: Global, found: Vec<(u64, BankPred)>) -> Result<Vec<Case<BankPred>>, AllocError>
    ensures { IfOk result (λ cs. cs.items ≡ map (λ c. record { address = c.0; pred = c.1 }) found.items) }
{
    let mut cases = Vec::new(alloc);
    for (address, pred) in found {
        cases.push(Case { address, pred })?;
    }
    Ok(cases)
}

/// The cases of a vertex at an instruction, as pairs.
fn found_cases<B: Bank>(
    alloc: Global,
    bank: &mut B,
    view: &SiteView,
    i: &Instr,
    pred: &BankPred,
) -> Result<Option<Vec<(u64, BankPred)>>, AllocError>
    requires pred { IsNumbered (B.terms bank.old) pred.now }
    ensures grows { Grows (B.terms bank.old) (B.terms bank.new) }
    ensures value { IfOk result (λ r. option_map (λ out. map (case_at (B.terms bank.new)) out.items) r ≡ cases (view_of view.now) i.now (predicate_at (B.terms bank.old) pred.now)) }
    ensures within { IfOk result (λ r. IfSome r (λ out. All (IsCaseBelow (length (B.terms bank.new))) out.items)) }
    ensures formed { IfOk result (λ r. IfSome r (λ out. All (IsCasePred (B.terms bank.new)) out.items)) }
{
    cases(alloc, bank, view, i, pred).map_err(refused)
}

/// The cases of a vertex at an instruction.
#[tactic(auto, using(crate::proofs::CaseLemmas::read_alike, crate::proofs::CaseLemmas::numbered_each))]
fn bank_cases<B: Bank>(
    alloc: Global,
    bank: &mut B,
    view: &SiteView,
    i: &Instr,
    pred: &BankPred,
) -> Result<Option<Vec<Case<BankPred>>>, AllocError>
    requires pred { IsNumbered (B.terms bank.old) pred.now }
    ensures grows { Grows (B.terms bank.old) (B.terms bank.new) }
    ensures value { IfOk result (λ r. option_map (λ cs. map (case_reading (predicate_at (B.terms bank.new))) cs.items) r ≡ option_map (map case_of) (cases (view_of view.now) i.now (predicate_at (B.terms bank.old) pred.now))) }
    ensures inside { IfOk result (λ r. IfSome r (λ cs. All (λ c. IsNumbered (B.terms bank.new) c.pred) cs.items)) }
{
    let found = found_cases(alloc, bank, view, i, pred)?;
    match found {
        None => Ok(None),
        Some(found) => {
            let cases = as_cases(alloc, found)?;
            Ok(Some(cases))
        }
    }
}

/// The cases of a vertex at a site with these lines; none where it has no edges.
fn cases_here<B: Bank>(
    alloc: Global,
    bank: &mut B,
    image: &Image,
    lines: &Lines,
    i: Option<&Instr>,
    pred: &BankPred,
) -> Result<Option<Vec<Case<BankPred>>>, AllocError>
    requires pred { IsNumbered (B.terms bank.old) pred.now }
    ensures grows { Grows (B.terms bank.old) (B.terms bank.new) }
    ensures value { IfOk result (λ r. option_map (λ cs. map (case_reading (predicate_at (B.terms bank.new))) cs.items) r ≡ option_map (map case_of) (cases_here image.now lines.now (option_copied i.entry) (predicate_at (B.terms bank.old) pred.now))) }
    ensures inside { IfOk result (λ r. IfSome r (λ cs. All (λ c. IsNumbered (B.terms bank.new) c.pred) cs.items)) }
{
    let Some(i) = i else {
        return Ok(Some(Vec::new(alloc)));
    };
    if !lines.kind.has_edges() {
        return Ok(Some(Vec::new(alloc)));
    }
    bank_cases(alloc, bank, &view_with(image, lines), i, pred)
}

/// What the site at an address says, of what is known at its vertices.
fn lines_of<B: Bank>(
    alloc: Global,
    bank: &B,
    program: &Program,
    address: u64,
    i: Option<&Instr>,
    made: &[Made<BankPred>],
    site: &[usize],
) -> Result<Lines, NoMemory>
    requires made { All (λ m. IsHeld (IsNumbered (B.terms bank.now)) m) made.now }
    requires instr { option_copied i ≡ instr_at program.now.image.now address }
    ensures { IfOk result (λ lines. lines ≡ lines_at (subject_of program.now) address (known_among (map (pred_at (reading (predicate_at (B.terms bank.now)) made.now)) site.now))) }
{
    let preds = preds_at(alloc, bank, made, site)?;
    let lines = lines_at(alloc, program, address, i, preds.as_slice())?;
    Ok(lines)
}

/// The same, where want of memory is as rounds have it.
fn made_lines<B: Bank>(
    alloc: Global,
    bank: &B,
    program: &Program,
    address: u64,
    i: Option<&Instr>,
    made: &[Made<BankPred>],
    site: &[usize],
) -> Result<Lines, AllocError>
    requires made { All (λ m. IsHeld (IsNumbered (B.terms bank.now)) m) made.now }
    requires instr { option_copied i ≡ instr_at program.now.image.now address }
    ensures { IfOk result (λ lines. lines ≡ lines_at (subject_of program.now) address (known_among (map (pred_at (reading (predicate_at (B.terms bank.now)) made.now)) site.now))) }
{
    lines_of(alloc, bank, program, address, i, made, site).map_err(refused)
}

/// The cases of a vertex at an address, of what is known at the vertices there.
#[tactic(auto, using(crate::proofs::CaseLemmas::here_cases))]
fn cases_at<B: Bank>(
    alloc: Global,
    bank: &mut B,
    program: &Program,
    address: u64,
    made: &[Made<BankPred>],
    site: &[usize],
    pred: &BankPred,
) -> Result<Option<Vec<Case<BankPred>>>, AllocError>
    requires made { All (λ m. IsHeld (IsNumbered (B.terms bank.old)) m) made.now }
    requires pred { IsNumbered (B.terms bank.old) pred.now }
    ensures grows { Grows (B.terms bank.old) (B.terms bank.new) }
    ensures value { IfOk result (λ r. option_map (λ cs. map (case_reading (predicate_at (B.terms bank.new))) cs.items) r ≡ cases_at (subject_of program.now) address (map (pred_at (reading (predicate_at (B.terms bank.old)) made.now)) site.now) (predicate_at (B.terms bank.old) pred.now)) }
    ensures inside { IfOk result (λ r. IfSome r (λ cs. All (λ c. IsNumbered (B.terms bank.new) c.pred) cs.items)) }
{
    let i = instr_at(program.image, address);
    let lines = made_lines(alloc, bank, program, address, i.as_ref(), made, site)?;
    let cases = cases_here(alloc, bank, program.image, &lines, i.as_ref(), pred)?;
    Ok(cases)
}

impl<'a, B: Bank> Steps for Walk<'a, B> {
    type Pred = BankPred;

    type Plain = Pred;

    ghost read = { λ w p. predicate_at (B.terms w.bank.now) p };

    ghost has = { λ w p. IsNumbered (B.terms w.bank.now) p };

    ghost grows = { λ a b. GoesOnAlike B.terms a b };

    ghost meaning = { λ w. meaning_of (subject_at w) };

    fn forks(&self, address: u64) -> bool {
        let _ = address;
        false
    }

    fn cases(
        &mut self,
        alloc: Global,
        address: u64,
        made: &[Made<BankPred>],
        site: &[usize],
        pred: &BankPred,
    ) -> Result<Option<Vec<Case<BankPred>>>, AllocError> {
        let program = program_of(self.image, self.externs, self.opened.as_slice());
        cases_at(alloc, self.bank, &program, address, made, site, pred)
    }

    fn weaken(&self, pred: &mut BankPred, other: &BankPred) {
        pred.weaken(other);
    }

    fn copy(&self, alloc: Global, pred: &BankPred) -> Result<BankPred, AllocError> {
        pred.copy(alloc).map_err(refused)
    }

    fn is_same(&self, left: &BankPred, right: &BankPred) -> bool {
        left.is_same(right)
    }

    ghost over = { λ a b c h k. walk_over B.terms a b c h k };

    ghost unmoved = { λ a. walk_unmoved B.terms a };

    ghost stays = { λ a b p g h. walk_has (B.terms a.bank.now) (B.terms b.bank.now) p g.goes_on.more h };

    ghost reads = { λ a b p g h. walk_reads (B.terms a.bank.now) (B.terms b.bank.now) p g.goes_on.more h };

    ghost means = { λ a b g. walk_alike B.terms a b g.goes_on g.opened };

    ghost itself = { λ a p. entails_itself p };

    ghost through = { λ a p q r h k. entails_through p q r h k };

    ghost kept = { λ a p q. entails_kept p q };

    ghost follows = { λ a p q. entails_follows p q };

    ghost falls = { λ a p q. weakened_falls p q };
}

/// Whether an instruction has cases at a vertex with this predicate; where none stands there are none.
#[tactic(auto, using(crate::proofs::TellLemmas::given))]
fn gives_cases<B: Bank>(
    alloc: Global,
    bank: &mut B,
    view: &SiteView,
    i: Option<&Instr>,
    pred: &BankPred,
) -> Result<bool, AllocError>
    requires { IsNumbered (B.terms bank.old) pred.now }
    ensures grows { Grows (B.terms bank.old) (B.terms bank.new) }
    ensures value { IfOk result (λ r. r ≡ gives_cases (view_of view.now) (option_copied i.entry) (predicate_at (B.terms bank.old) pred.now)) }
{
    let Some(i) = i else {
        return Ok(false);
    };
    let found = found_cases(alloc, bank, view, i, pred)?;
    Ok(found.is_some())
}

/// The same of a vertex; one of which nothing is known passes.
#[tactic(auto, using(crate::proofs::TellLemmas::told_nothing, crate::proofs::TellLemmas::told_some))]
fn known_tells<B: Bank>(
    alloc: Global,
    bank: &mut B,
    view: &SiteView,
    i: Option<&Instr>,
    known: &Option<BankPred>,
) -> Result<bool, AllocError>
    requires { IfSome known.now (IsNumbered (B.terms bank.old)) }
    ensures grows { Grows (B.terms bank.old) (B.terms bank.new) }
    ensures value { IfOk result (λ r. IsTrue r ↔ IfSome (option_map (predicate_at (B.terms bank.old)) known.now) (λ p. gives_cases (view_of view.now) (option_copied i.entry) p ≡ true)) }
{
    match known {
        None => Ok(true),
        Some(pred) => gives_cases(alloc, bank, view, i, pred),
    }
}

/// Whether a vertex, if something is known of it, tells where its jump goes.
#[tactic(auto, using(lift_rounds::proofs::ReadingLemmas::pred_at_read, crate::proofs::KnownLemmas::pred_past))]
fn vertex_tells<B: Bank>(
    alloc: Global,
    bank: &mut B,
    view: &SiteView,
    i: Option<&Instr>,
    made: &[Made<BankPred>],
    vertex: usize,
) -> Result<bool, AllocError>
    requires { All (λ m. IsHeld (IsNumbered (B.terms bank.old)) m) made.now }
    ensures grows { Grows (B.terms bank.old) (B.terms bank.new) }
    ensures value { IfOk result (λ r. IsTrue r ↔ IfSome (pred_at (reading (predicate_at (B.terms bank.old)) made.now) vertex) (λ p. gives_cases (view_of view.now) (option_copied i.entry) p ≡ true)) }
{
    if made.len() <= vertex {
        return Ok(true);
    }
    let known = &made[vertex].pred;
    let told = known_tells(alloc, bank, view, i, known)?;
    Ok(told)
}

/// Whether each vertex of a site of which something is known tells where its jump goes.
fn all_tell<B: Bank>(
    alloc: Global,
    bank: &mut B,
    view: &SiteView,
    i: Option<&Instr>,
    made: &[Made<BankPred>],
    site: &[usize],
) -> Result<bool, AllocError>
    requires { All (λ m. IsHeld (IsNumbered (B.terms bank.old)) m) made.now }
    ensures grows { Grows (B.terms bank.old) (B.terms bank.new) }
    ensures value { IfOk result (λ r. IsTrue r ↔ AllPass (gives_cases (view_of view.now) (option_copied i.entry)) (map (pred_at (reading (predicate_at (B.terms bank.old)) made.now)) site.now)) }
{
    for vertex in site {
        let told = vertex_tells(alloc, bank, view, i, made, *vertex)?;
        if !told {
            return Ok(false);
        }
    }
    Ok(true)
}

/// The same at an address.
#[tactic(auto, using(crate::proofs::TellLemmas::told_at))]
fn all_tell_at<B: Bank>(
    alloc: Global,
    bank: &mut B,
    program: &Program,
    address: u64,
    made: &[Made<BankPred>],
    site: &[usize],
) -> Result<bool, AllocError>
    requires { All (λ m. IsHeld (IsNumbered (B.terms bank.old)) m) made.now }
    ensures grows { Grows (B.terms bank.old) (B.terms bank.new) }
    ensures value { IfOk result (λ r. IsTrue r ↔ AllPass (tells (subject_of program.now) address) (map (pred_at (reading (predicate_at (B.terms bank.old)) made.now)) site.now)) }
{
    let view = program.bare_view();
    let i = instr_at(program.image, address);
    let told = all_tell(alloc, bank, &view, i.as_ref(), made, site)?;
    Ok(told)
}

impl<'a, B: Bank> Jumps for Walk<'a, B> {
    ghost continues = { λ a b. GoesOn B.terms a b };

    ghost opened = { λ w. w.opened.now.items };

    ghost shut = { λ w address. is_shut_at (subject_at w) address };

    ghost tells = { λ w address p. tells (subject_at w) address p };

    fn is_shut(&self, address: u64) -> bool {
        self.program().is_shut_at(address)
    }

    fn resolves(
        &mut self,
        alloc: Global,
        address: u64,
        made: &[Made<BankPred>],
        site: &[usize],
    ) -> Result<bool, AllocError> {
        let program = program_of(self.image, self.externs, self.opened.as_slice());
        all_tell_at(alloc, self.bank, &program, address, made, site)
    }

    fn open(&mut self, address: u64) -> Result<(), AllocError> {
        self.opened.push(address)?;
        Ok(())
    }

    fn close(&mut self) {
        let _ = self.opened.pop();
    }

    ghost grown = { λ a b h. h.goes_on };

    ghost further = { λ a b c h k. walk_further B.terms a b c h k };

    ghost has_still = { λ a b p g h. walk_has (B.terms a.bank.now) (B.terms b.bank.now) p g.more h };

    ghost reads_still = { λ a b p g h. walk_reads (B.terms a.bank.now) (B.terms b.bank.now) p g.more h };

    ghost forks_still = { λ a b address h. refl };

    ghost as_open = { λ a b h. h.opened };

    ghost alike = { λ a b h e. walk_alike B.terms a b h e };

    ghost fixed = { λ a e address. fixed_at (subject_at a) e address };
}
