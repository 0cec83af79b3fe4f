// That what is built is in form: one look at each of its terms and numbers. No call takes memory or changes anything.
ghost use Rattle.std.specs.Prelude.{◌≡◌, IfSome};
ghost use Rattle.std.specs.Option.{option_copied};
ghost use Rattle.sym_terms.specs.Normal.{IsTerm};
ghost use Rattle.mem_forest.specs.Plain.{cell, cells, none};
ghost use Rattle.graph_data.specs.Parts.{Each};
ghost use Rattle.graph_data.specs.WellFormed.{AreNumbers, HasTerms, IsBound, IsFact, IsKind, IsKnown, IsNumber, IsPred};
ghost use Rattle.lifted_exact.specs.Looked.{ArePairTerms, IsRegionTerm};

use mem_forest::{Node, Region};
use predicates::{Bound, FlagFact, Kind, Pred, Values};
use sym_terms::Term;

fn look_at_known(term: Option<&Term>)
    ensures { IsKnown (option_copied term.entry) }
{
    if let Some(term) = term {
        term.as_sum();
    }
}

#[tactic(auto, using(crate::proofs::EachLemmas::each_more, crate::proofs::EachLemmas::each_all))]
fn look_at_registers(terms: &[Option<Term>])
    ensures { Each IsKnown terms.now }
{
    for term in terms {
        look_at_known(term.as_ref());
    }
}

#[tactic(auto, using(crate::proofs::EachLemmas::each_more, crate::proofs::EachLemmas::each_all))]
fn look_at_names(names: &[Term])
    ensures { Each IsTerm names.now }
{
    for name in names {
        name.as_sum();
    }
}

#[cycle(look)]
fn look_at_node(node: &Node)
    ensures { HasTerms (cell node.now.names node.now.bytes node.now.value node.now.under none) }
{
    look_at_names(node.names.as_slice());
    look_at_known(node.value.as_ref());
    look_at_nodes(node.under.as_slice());
}

#[cycle(look)]
#[tactic(auto, using(crate::proofs::EachLemmas::terms_more))]
fn look_at_nodes(nodes: &[Node])
    ensures { HasTerms (cells nodes.now) }
{
    for node in nodes {
        look_at_node(node);
    }
}

fn look_at_fact(fact: Option<&FlagFact>)
    ensures { IfSome (option_copied fact.entry) IsFact }
{
    if let Some(fact) = fact {
        fact.left.as_sum();
        fact.right.as_sum();
    }
}

fn look_at_number(number: u64)
    ensures { IsNumber number }
{
    let _ = number;
}

fn look_at_numbers(numbers: &[u64])
    ensures { Each IsNumber numbers.now }
{
    for number in numbers {
        look_at_number(*number);
    }
}

fn look_at_values(values: &Values)
    ensures { AreNumbers values.now }
{
    match values {
        Values::Range(low, high) => {
            look_at_number(*low);
            look_at_number(*high);
        }
        Values::OneOf(numbers) => look_at_numbers(numbers.as_slice()),
    }
}

#[tactic(auto, using(crate::proofs::EachLemmas::each_more, crate::proofs::EachLemmas::each_all))]
fn look_at_bounds(bounds: &[Bound])
    ensures { Each IsBound bounds.now }
{
    for bound in bounds {
        bound.key.as_sum();
        look_at_values(&bound.set);
    }
}

/// That a predicate has terms of the program everywhere, and numbers of 64 bits.
pub(crate) fn look_at_pred(pred: &Pred)
    ensures { IsPred pred.now }
{
    look_at_registers(pred.regs.as_slice());
    look_at_fact(pred.flags.as_ref());
    look_at_bounds(pred.bounds.as_slice());
    look_at_nodes(pred.forest.nodes());
}

/// That the addresses of regions are terms of the program.
#[tactic(auto, using(crate::proofs::EachLemmas::each_more, crate::proofs::EachLemmas::each_all))]
pub(crate) fn look_at_regions(regions: &[Region])
    ensures { Each IsRegionTerm regions.now }
{
    for region in regions {
        region.at.as_sum();
    }
}

/// The same of pairs of regions.
#[tactic(auto, using(crate::proofs::EachLemmas::each_more, crate::proofs::EachLemmas::each_all))]
pub(crate) fn look_at_pairs(pairs: &[(Region, Region)])
    ensures { Each ArePairTerms pairs.now }
{
    for pair in pairs {
        pair.0.at.as_sum();
        pair.1.at.as_sum();
    }
}

/// That a callee has an address of 64 bits.
pub(crate) fn look_at_kind(kind: Kind)
    ensures { IsKind kind }
{
    match kind {
        Kind::Call(entry) => look_at_number(entry),
        Kind::Step | Kind::Outside | Kind::Return | Kind::End(_) => {}
    }
}
