ghost use Rattle.std.specs.Prelude.{◌≡◌};

use graph_data::{Function, Graph, Kind, Refused, Site};
use sqlite_items::Items;
use std::alloc::{AllocError, Global};
use std::test::Fail;

fn site_at(alloc: Global, addr: u64) -> Site
    ensures { result.addr ≡ addr }
{
    Site {
        addr,
        kind: Kind::Return,
        seps: Items::new(alloc),
        fork: None,
        keeps: Items::new(alloc),
        vertices: Items::new(alloc),
    }
}

fn function_at(alloc: Global, entry: u64, addresses: &[u64]) -> Result<Function, AllocError> {
    let mut sites = Items::new(alloc);
    for addr in addresses {
        sites.push(site_at(alloc, *addr))?;
    }
    Ok(Function {
        entry,
        below: 65_536,
        above: 4_096,
        refused: None,
        sites,
    })
}

#[test]
fn the_first_site_with_the_address_is_found(rt: HostRuntime) -> Result<(), Fail> {
    let function = function_at(rt.alloc(), 1, &[5, 1, 3])?;
    assert_eq!(rt; function.site(3).ok_or("no site")?.addr, 3);
    assert!(rt; function.site(2).is_none());
    Ok(())
}

#[test]
fn the_first_function_with_the_entry_is_found(rt: HostRuntime) -> Result<(), Fail> {
    let alloc = rt.alloc();
    let mut functions = Items::new(alloc);
    functions.push(function_at(alloc, 9, &[9])?)?;
    functions.push(Function {
        entry: 7,
        below: 0,
        above: 0,
        refused: Some(Refused::NotCode),
        sites: Items::new(alloc),
    })?;
    functions.push(function_at(alloc, 7, &[7])?)?;
    let graph = Graph { functions };
    let found = graph.function(7).ok_or("no function")?;
    assert!(rt; found.refused.is_some(), "the first of two");
    assert!(rt; graph.function(8).is_none());
    Ok(())
}
