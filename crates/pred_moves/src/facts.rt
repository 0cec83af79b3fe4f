// What is known of registers and flags, and what is left once a symbol is forgotten.
ghost use Rattle.std.specs.Prelude.{◌≡◌, map, filter, not};
ghost use Rattle.std.specs.Option.{option_copied};
ghost use Rattle.sym_terms.specs.Mentions.{mentions};
ghost use Rattle.mem_forest.specs.Mentioned.{value_mentions};
ghost use Rattle.predicate_meaning.specs.Sat.{register};
ghost use Rattle.step_rules.specs.Access.{with_register};
ghost use Rattle.step_rules.specs.Steps.{with_flags};
ghost use Rattle.step_rules.specs.Drop.{term_without, fact_without, without};

use predicates::{Bound, FlagFact, Pred};
use sqlite_items::Items;
use sym_terms::{Sym, Term};

/// The term of a register, where it is known.
#[tactic(auto, unfolding(predicate_meaning::specs::Sat::register), using(std::proofs::lemmas::List::get_or_past))]
pub fn register(p: &Pred, r: u8) -> Option<&Term>
    ensures { option_copied result ≡ register p.now r }
{
    let at = usize::from(r);
    if at < p.regs.len() {
        p.regs.as_slice()[at].as_ref()
    } else {
        None
    }
}

/// Another term for a register, or none.
#[tactic(auto, unfolding(step_rules::specs::Access::with_register))]
pub fn set_register(p: &mut Pred, r: u8, term: Option<Term>)
    ensures { p.new ≡ with_register p.old r term }
{
    let at = usize::from(r);
    if at < p.regs.len() {
        p.regs.set(at, term);
    }
}

/// Another flag fact, or none.
#[tactic(auto, unfolding(step_rules::specs::Steps::with_flags))]
pub fn set_flags(p: &mut Pred, fact: Option<FlagFact>)
    ensures { p.new ≡ with_flags p.old fact }
{
    p.flags = fact;
}

fn is_mentioned(term: Option<&Term>, s: Sym) -> bool
    ensures { result ≡ value_mentions s (option_copied term.entry) }
{
    match term {
        Some(term) => term.mentions(s),
        None => false,
    }
}

fn forget_terms(regs: &mut Items<Option<Term>>, s: Sym)
    ensures { regs.new ≡ map (term_without s) regs.old }
{
    for r in 0..regs.len() {
        let term = &regs.as_slice()[r];
        if is_mentioned(term.as_ref(), s) {
            regs.set(r, None);
        }
    }
}

fn forget_fact(flags: &mut Option<FlagFact>, s: Sym)
    ensures { flags.new ≡ fact_without s flags.old }
{
    let is_mentioned = match flags.as_ref() {
        Some(fact) => fact.left.mentions(s) || fact.right.mentions(s),
        None => false,
    };
    if is_mentioned {
        *flags = None;
    }
}

fn stays(bound: &Bound, s: Sym) -> bool
    ensures { result ≡ not (mentions s bound.now.key) }
{
    !bound.key.mentions(s)
}

fn forget_bounds(bounds: &mut Items<Bound>, s: Sym)
    ensures { bounds.new ≡ filter (λ b. not (mentions s b.key)) bounds.old }
{
    let mut left = bounds.len();
    while left > 0 {
        left -= 1;
        if !stays(&bounds.as_slice()[left], s) {
            bounds.remove(left);
        }
    }
}

/// What doesn't mention a symbol. Takes no memory.
pub fn forget(p: &mut Pred, s: Sym)
    ensures { p.new ≡ without s p.old }
{
    forget_terms(&mut p.regs, s);
    forget_fact(&mut p.flags, s);
    forget_bounds(&mut p.bounds, s);
    p.forest.forget(s);
}
