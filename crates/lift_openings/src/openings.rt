// Rounds, and jumps that are opened between them.
ghost use Rattle.std.specs.Prelude.{◌≡◌, ◌+◌, ◌<◌, ◌^◌, ◌↔◌, ℕ, true, false, IfOk, OnOk, IsTrue, [], length};
ghost use Rattle.lift_rounds.specs.Fixed.{IsFilled, IsFixedAt};
ghost use Rattle.lift_rounds.specs.Known.{reading};
ghost use Rattle.lift_openings.specs.Lifted.{IsBegun, IsFound, IsLifted, IsOneMore, IsResolved};

use crate::copies::copy_lift;
use crate::jumps::Jumps;
use crate::lift::Lift;
use lift_graph::Stop;
use lift_rounds::{Graph, first_known, run_rounds};
use no_memory::NoMemory;
use std::alloc::{AllocError, Global};

/// Rounds until one changes nothing: where no site forks they come to rest. `Lost` where an open jump isn't resolved or loses an
/// edge, `NoMemory` where memory runs out.
fn settle<S: Jumps>(alloc: Global, steps: &mut S, lift: &mut Lift<S::Pred>) -> Result<(), Stop>
    requires found { IsFound (S.meaning steps.old) (S.has steps.old) (S.read steps.old) lift.old }
    requires plain { (address : ℕ) → (S.meaning steps.old).forks address ≡ false }
    ensures grows { S.grows steps.old steps.new }
    ensures lifted { OnOk result (IsLifted (S.meaning steps.new) (S.has steps.new) (S.read steps.new) lift.new) }
    ensures begun { OnOk result ((address : ℕ) (start : S.Plain) → IsBegun (S.read steps.old) lift.old address start → IsBegun (S.read steps.new) lift.new address start) }
    ensures lost { result ≡ Err Stop.Lost → IsFilled (S.meaning steps.old) lift.old.graph.keys.items (reading (S.read steps.old) lift.old.made.items) → ¬ ((address : ℕ) → IsFixedAt (S.meaning steps.old) address) }
{
    let calm = run_rounds(alloc, steps, &mut lift.graph, &mut lift.made)?;
    prove!(calm);
    Ok(())
}

/// The addresses of the shut jumps, ascending.
fn shut_jumps<S: Jumps>(alloc: Global, steps: &S, graph: &Graph) -> Result<Vec<u64>, NoMemory> {
    let mut addresses = Vec::new(alloc);
    for key in graph.keys.as_slice() {
        if steps.is_shut(key.address) {
            addresses.push(key.address).map_err(AllocError::from)?;
        }
    }
    addresses.sort_unstable();
    addresses.dedup();
    Ok(addresses)
}

/// Whether each vertex of a shut jump of which something is known tells where the jump goes.
fn resolves<S: Jumps>(
    alloc: Global,
    steps: &mut S,
    lift: &Lift<S::Pred>,
    address: u64,
) -> Result<bool, NoMemory>
    requires { IsFound (S.meaning steps.old) (S.has steps.old) (S.read steps.old) lift.now }
    ensures grows { S.grows steps.old steps.new }
    ensures resolved { IfOk result (λ r. IsTrue r ↔ IsResolved (S.tells steps.old address) (S.read steps.old) lift.now address) }
{
    let site = lift.graph.site(alloc, address)?;
    let resolved = steps.resolves(alloc, address, lift.made.as_slice(), site.as_slice())?;
    Ok(resolved)
}

/// Opens a shut jump; whether the opening stands. Where it doesn't, all is as before.
fn try_open<S: Jumps>(
    alloc: Global,
    steps: &mut S,
    lift: &mut Lift<S::Pred>,
    address: u64,
) -> Result<bool, NoMemory>
    requires lifted { IsLifted (S.meaning steps.old) (S.has steps.old) (S.read steps.old) lift.old }
    requires plain { (address : ℕ) → (S.meaning steps.old).forks address ≡ false }
    ensures continues { S.continues steps.old steps.new }
    ensures lifted { OnOk result (IsLifted (S.meaning steps.new) (S.has steps.new) (S.read steps.new) lift.new) }
    ensures begun { OnOk result ((address : ℕ) (start : S.Plain) → IsBegun (S.read steps.old) lift.old address start → IsBegun (S.read steps.new) lift.new address start) }
    ensures opened { IfOk result (λ r. r ≡ true → IsOneMore (S.opened steps.old) (S.opened steps.new)) }
    ensures shut { IfOk result (λ r. r ≡ false → S.opened steps.new ≡ S.opened steps.old) }
{
    let before = copy_lift(alloc, steps, lift)?;
    steps.open(address)?;
    match settle(alloc, steps, lift) {
        Ok(()) => Ok(true),
        Err(Stop::NoMemory) => Err(NoMemory),
        Err(Stop::Lost) => {
            *lift = before;
            steps.close();
            Ok(false)
        }
    }
}

/// Opens a shut jump that every vertex resolves; whether there is an opening that stands.
fn try_resolved<S: Jumps>(
    alloc: Global,
    steps: &mut S,
    lift: &mut Lift<S::Pred>,
    address: u64,
) -> Result<bool, NoMemory>
    requires lifted { IsLifted (S.meaning steps.old) (S.has steps.old) (S.read steps.old) lift.old }
    requires plain { (address : ℕ) → (S.meaning steps.old).forks address ≡ false }
    ensures continues { S.continues steps.old steps.new }
    ensures lifted { OnOk result (IsLifted (S.meaning steps.new) (S.has steps.new) (S.read steps.new) lift.new) }
    ensures begun { OnOk result ((address : ℕ) (start : S.Plain) → IsBegun (S.read steps.old) lift.old address start → IsBegun (S.read steps.new) lift.new address start) }
    ensures resolved { IfOk result (λ r. r ≡ true → IsResolved (S.tells steps.old address) (S.read steps.old) lift.old address) }
    ensures opened { IfOk result (λ r. r ≡ true → IsOneMore (S.opened steps.old) (S.opened steps.new)) }
    ensures shut { IfOk result (λ r. r ≡ false → S.opened steps.new ≡ S.opened steps.old) }
{
    if !resolves(alloc, steps, lift, address)? {
        return Ok(false);
    }
    try_open(alloc, steps, lift, address)
}

/// Opens the first of some shut jumps that every vertex resolves and that stays open; whether there was one.
fn open_first<S: Jumps>(
    alloc: Global,
    steps: &mut S,
    lift: &mut Lift<S::Pred>,
    addresses: &[u64],
) -> Result<bool, NoMemory>
    requires lifted { IsLifted (S.meaning steps.old) (S.has steps.old) (S.read steps.old) lift.old }
    requires plain { (address : ℕ) → (S.meaning steps.old).forks address ≡ false }
    ensures continues { S.continues steps.old steps.new }
    ensures lifted { OnOk result (IsLifted (S.meaning steps.new) (S.has steps.new) (S.read steps.new) lift.new) }
    ensures begun { OnOk result ((address : ℕ) (start : S.Plain) → IsBegun (S.read steps.old) lift.old address start → IsBegun (S.read steps.new) lift.new address start) }
    ensures opened { IfOk result (λ r. r ≡ true → IsOneMore (S.opened steps.old) (S.opened steps.new)) }
    ensures shut { IfOk result (λ r. r ≡ false → S.opened steps.new ≡ S.opened steps.old) }
{
    for address in addresses {
        if try_resolved(alloc, steps, lift, *address)? {
            return Ok(true);
        }
    }
    Ok(false)
}

/// Opens shut jumps, the least first, until none is left that can be opened: after each that stays open all are tried anew.
fn open_jumps<S: Jumps>(
    alloc: Global,
    steps: &mut S,
    lift: &mut Lift<S::Pred>,
) -> Result<(), NoMemory>
    requires lifted { IsLifted (S.meaning steps.old) (S.has steps.old) (S.read steps.old) lift.old }
    requires plain { (address : ℕ) → (S.meaning steps.old).forks address ≡ false }
    ensures continues { S.continues steps.old steps.new }
    ensures lifted { OnOk result (IsLifted (S.meaning steps.new) (S.has steps.new) (S.read steps.new) lift.new) }
    ensures begun { OnOk result ((address : ℕ) (start : S.Plain) → IsBegun (S.read steps.old) lift.old address start → IsBegun (S.read steps.new) lift.new address start) }
{
    'jumps: loop {
        let addresses = shut_jumps(alloc, steps, &lift.graph)?;
        if !open_first(alloc, steps, lift, addresses.as_slice())? {
            return Ok(());
        }
    }
}

/// An entry vertex, of which this is known.
fn begin<S: Jumps>(
    alloc: Global,
    steps: &S,
    entry: u64,
    start: S::Pred,
) -> Result<Lift<S::Pred>, NoMemory>
    requires { S.has steps.now start }
    ensures found { IfOk result (λ l. IsFound (S.meaning steps.now) (S.has steps.now) (S.read steps.now) l) }
    ensures begun { IfOk result (λ l. IsBegun (S.read steps.now) l entry (S.read steps.now start)) }
    ensures filled { IfOk result (λ l. IsFilled (S.meaning steps.now) l.graph.keys.items (reading (S.read steps.now) l.made.items)) }
{
    let graph = Graph::new(alloc, entry)?;
    let made = first_known(alloc, steps, &graph, start)?;
    Ok(Lift { graph, made })
}

/// Lifts a function from an entry, where this is known: rounds until one changes nothing, and then, jump by jump, the openings
/// that stand, each with its rounds.
pub fn lift_from<S: Jumps>(
    alloc: Global,
    steps: &mut S,
    entry: u64,
    start: S::Pred,
) -> Result<Lift<S::Pred>, NoMemory>
    requires start { S.has steps.old start }
    requires shut { S.opened steps.old ≡ [] }
    requires plain { (address : ℕ) → (S.meaning steps.old).forks address ≡ false }
    ensures continues { S.continues steps.old steps.new }
    ensures lifted { IfOk result (λ l. IsLifted (S.meaning steps.new) (S.has steps.new) (S.read steps.new) l) }
    ensures begun { IfOk result (λ l. IsBegun (S.read steps.new) l entry (S.read steps.old start)) }
{
    let mut lift = begin(alloc, steps, entry, start)?;
    match settle(alloc, steps, &mut lift) {
        Ok(()) => {}
        Err(Stop::NoMemory) => return Err(NoMemory),
        // No jump is open yet.
        Err(Stop::Lost) => unreachable!(),
    }
    open_jumps(alloc, steps, &mut lift)?;
    Ok(lift)
}
