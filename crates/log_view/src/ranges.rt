ghost use Rattle.std.specs.Prelude.{◌≡◌, take, drop};

use host_ids::Entry;

/// At most `most` entries from a place on.
pub(crate) fn some_from(held: &[Entry], place: usize, most: usize) -> &[Entry]
    ensures { result.now ≡ take most (drop place held.now) }
{
    let rest = held.split_at(place.min(held.len())).1;
    rest.split_at(most.min(rest.len())).0
}
