ghost use Rattle.std.specs.Prelude.{◌≡◌, IfOk, map};
ghost use Rattle.std.specs.List.{list_all};
ghost use Rattle.std.specs.Option.{option_map};
ghost use Rattle.std.specs.Vec.{vec_items};
ghost use Rattle.elf_image.specs.Image.{is_code_at};
ghost use Rattle.jump_tables.specs.Targets.{address_after, code_after, targets};

use crate::order::ascending;
use elf_image::Image;
use no_memory::NoMemory;
use std::alloc::Global;
use sym_terms::Term;

/// Where a jump to `jump` leads, when the value of `key` is one of `values`: the addresses `c + value` modulo 2^64 for
/// the constant `c = jump - key`, ascending, each once.
///
/// `None` exactly where `jump - key` isn't constant, or an address isn't code.
pub fn targets(
    alloc: Global,
    image: &Image,
    jump: &Term,
    key: &Term,
    values: &[u64],
) -> Result<Option<Vec<u64>>, NoMemory>
    ensures { IfOk result (λ r. option_map vec_items r ≡ targets image.now jump.now key.now values.now) }
{
    let Some(offset) = jump.offset_from(key) else {
        return Ok(None);
    };
    let Some(addresses) = code_after(alloc, image, offset, values)? else {
        return Ok(None);
    };
    Ok(Some(ascending(addresses)))
}

// The addresses that lie `offset` after the values; `None` where one isn't code.
fn code_after(
    alloc: Global,
    image: &Image,
    offset: u64,
    values: &[u64],
) -> Result<Option<Vec<u64>>, NoMemory>
    ensures { IfOk result (λ r. option_map vec_items r ≡ code_after image.now offset values.now) }
{
    if !are_code(image, offset, values) {
        return Ok(None);
    }
    let addresses = addresses_after(alloc, offset, values)?;
    Ok(Some(addresses))
}

fn are_code(image: &Image, offset: u64, values: &[u64]) -> bool
    ensures { result ≡ list_all (λ n. is_code_at image.now (address_after offset n)) values.now }
{
    values
        .iter()
        .all(|value| image.is_code(offset.wrapping_add(*value)))
}

fn addresses_after(alloc: Global, offset: u64, values: &[u64]) -> Result<Vec<u64>, NoMemory>
    ensures { IfOk result (λ v. v.items ≡ map (address_after offset) values.now) }
{
    let addresses = values
        .iter()
        .map(|value| offset.wrapping_add(*value))
        .collect(alloc)?;
    Ok(addresses)
}
