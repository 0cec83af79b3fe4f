// Which kind of site may stand at which instruction, and how the pairs of a site lie. No call takes memory.
ghost use Rattle.std.specs.Prelude.{◌≡◌, true};
ghost use Rattle.std.specs.List.{list_all};
ghost use Rattle.std.specs.Option.{option_map_or};
ghost use Rattle.step_values.specs.Views.{view_of};
ghost use Rattle.edge_checker.specs.Decisions.{may_step, may_call, may_leave, may_return, fits, is_undecided, are_undecided};

use memory_regions::{Context, Region, Relation, relate};
use predicates::{Kind, SiteView};
use x86_instr::Class;

/// Whether a site of the kind may stand at an instruction of the class (Intel SDM volume 2: CALL, RET, SYSCALL, HLT, INT3,
/// UD2, and all others that go on or jump).
pub fn fits(kind: Kind, class: Class) -> bool
    ensures { result ≡ fits kind class }
{
    match kind {
        Kind::Step => may_step(class),
        Kind::Call(_) => may_call(class),
        Kind::Outside => may_leave(class),
        Kind::Return => may_return(class),
        Kind::End(_) => true,
    }
}

fn may_step(class: Class) -> bool
    ensures { result ≡ may_step class }
{
    match class {
        Class::Calculation | Class::Transfer | Class::Division | Class::Jump => true,
        Class::Call | Class::Return | Class::SystemCall | Class::Stop => false,
    }
}

fn may_call(class: Class) -> bool
    ensures { result ≡ may_call class }
{
    class == Class::Call
}

fn may_leave(class: Class) -> bool
    ensures { result ≡ may_leave class }
{
    class == Class::Call || class == Class::SystemCall
}

fn may_return(class: Class) -> bool
    ensures { result ≡ may_return class }
{
    class == Class::Return
}

/// Whether neither a constant difference nor the frame says how the regions of the site's pairs lie.
pub fn are_undecided(v: &SiteView) -> bool
    ensures { result ≡ are_undecided (view_of v.now) }
{
    are_seps_undecided(v) && is_fork_undecided(v)
}

fn are_seps_undecided(v: &SiteView) -> bool
    ensures { result ≡ list_all (is_undecided (view_of v.now)) (view_of v.now).known.seps }
{
    v.context.seps.iter().all(|pair| is_undecided(v, pair))
}

fn is_fork_undecided(v: &SiteView) -> bool
    ensures { result ≡ option_map_or (is_undecided (view_of v.now)) (view_of v.now).fork true }
{
    match v.fork {
        Some(pair) => is_undecided(v, pair),
        None => true,
    }
}

fn is_undecided(v: &SiteView, pair: &(Region, Region)) -> bool
    ensures { result ≡ is_undecided (view_of v.now) pair.now }
{
    let alone = Context {
        image: v.context.image,
        below: v.context.below,
        above: v.context.above,
        seps: &[],
    };
    let (region, other) = pair;
    relate(region, other, &alone) == Relation::Unknown
}
