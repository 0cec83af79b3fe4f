//! The fields that a separator parts, from the left.
ghost use Rattle.std.specs.Prelude.{◌≡◌, ◌∷◌, ◌<◌, length, IfSome};
ghost use Rattle.std.specs.Option.{option_map};
ghost use Rattle.graph_lines.specs.Words.{fields, fields_after};

use crate::words::split_at;

/// The first field, and what stands after its separator; `None` where no separator stands after it.
pub(crate) fn first_field(bytes: &[u8], separator: u8) -> (&[u8], Option<&[u8]>)
    ensures value { fields separator bytes.now ≡ result.0.now ∷ fields_after separator (option_map (λ r. r.now) result.1) }
    ensures shorter { IfSome result.1 (λ r. length r.now < length bytes.now) }
{
    match split_at(bytes, separator) {
        Some((field, after)) => (field, Some(after)),
        None => (bytes, None),
    }
}
