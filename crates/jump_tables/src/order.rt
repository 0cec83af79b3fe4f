ghost use Rattle.std.specs.Prelude.{◌≡◌};
ghost use Rattle.jump_tables.specs.Ascending.{ascending_of};

/// The numbers, ascending, each once.
pub fn ascending(numbers: Vec<u64>) -> Vec<u64>
    ensures { result.items ≡ ascending_of numbers.items }
{
    let mut numbers = numbers;
    numbers.sort_unstable();
    numbers.dedup();
    numbers
}
