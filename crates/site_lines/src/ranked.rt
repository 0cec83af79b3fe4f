// Lists in an order, each item once.
ghost use Rattle.std.specs.Prelude.{◌≡◌, false, not, position, slice_get, OnOk};
ghost use Rattle.std.specs.List.{position_or_len};
ghost use Rattle.std.specs.Option.{option_map_or};
ghost use Rattle.std.specs.Ordering.{is_gt, is_eq};
ghost use Rattle.graph_data.specs.Order.{pair_cmp, region_cmp};
ghost use Rattle.site_lines.specs.Ordered.{with_item};

use mem_forest::Region;
use std::alloc::AllocError;
use std::cmp::Ordering;
use sym_terms::NoMemory;

/// What has an order.
pub(crate) trait Ranked: Drop {
    ghost use Rattle.std.specs.declared.cmp.Ordering.{Ordering as Rank};

    ghost order: { Self → Self → Rank };

    fn rank(&self, other: &Self) -> Ordering
        ensures { result ≡ order self.now other.now };
}

impl Ranked for Region {
    ghost order = { region_cmp };

    fn rank(&self, other: &Region) -> Ordering {
        self.at
            .compare(&other.at)
            .then(self.bytes.cmp(&other.bytes))
    }
}

impl Ranked for (Region, Region) {
    ghost order = { pair_cmp };

    fn rank(&self, other: &(Region, Region)) -> Ordering {
        self.0.rank(&other.0).then(self.1.rank(&other.1))
    }
}

/// The place of the first item that one isn't above.
fn first_not_before<T: Ranked>(items: &[T], item: &T) -> Option<usize>
    ensures { result ≡ position (λ x. not (is_gt (T.order item.now x))) items.now }
{
    items.iter().position(|other| !item.rank(other).is_gt())
}

/// How many items of an ascending list stand before one.
fn place_of<T: Ranked>(items: &[T], item: &T) -> usize
    ensures { result ≡ position_or_len (λ x. not (is_gt (T.order item.now x))) items.now }
{
    first_not_before(items, item).unwrap_or(items.len())
}

/// Whether one is the item at a place.
fn is_item_at<T: Ranked>(items: &[T], place: usize, item: &T) -> bool
    ensures { result ≡ option_map_or (λ x. is_eq (T.order item.now x)) (slice_get items.now place) false }
{
    items
        .get(place)
        .is_some_and(|other| item.rank(other).is_eq())
}

/// One more item in its place of an ascending list, unless it stands there.
pub(crate) fn add<T: Ranked>(items: &mut Vec<T>, item: T) -> Result<(), NoMemory>
    ensures { OnOk result (items.new.items ≡ with_item T.order item items.old.items) }
{
    let place = place_of(items.as_slice(), &item);
    if is_item_at(items.as_slice(), place, &item) {
        return Ok(());
    }
    items.insert(place, item).map_err(AllocError::from)?;
    Ok(())
}
