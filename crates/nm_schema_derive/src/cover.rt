//! Whether parts are within others. The walk along the base begins where a part does, found by halves.

ghost use Rattle.std.specs.Prelude.{◌≡◌, true, option_map};
ghost use Rattle.std.specs.List.{list_all};
ghost use Rattle.nm_types.specs.Parts.{is_ascending};
ghost use Rattle.nm_schema_derive.specs.Cover.{rest_from, is_inside};

use nm_types::parts::place_of;

// The parts from the one that has the highest number of a part on, where they have all its numbers.
fn walked_from<'a>(base: &'a [(i128, i128)], part: &(i128, i128)) -> Option<&'a [(i128, i128)]>
    ensures { option_map (λ rest. rest.now) result ≡ rest_from base.now part.now.0 part.now.1 }
{
    let mut low = part.0;
    for (place, held) in base.iter().enumerate() {
        if held.1 < low {
            continue;
        }
        if low < held.0 {
            return None;
        }
        if part.1 <= held.1 {
            return Some(&base[place..]);
        }
        low = held.1 + 1;
    }
    None
}

// The same of parts that ascend.
fn rest_from<'a>(base: &'a [(i128, i128)], part: &(i128, i128)) -> Option<&'a [(i128, i128)]>
    requires { is_ascending base.now ≡ true }
    ensures { option_map (λ rest. rest.now) result ≡ rest_from base.now part.now.0 part.now.1 }
{
    walked_from(&base[place_of(base, part.0)..], part)
}

// Whether parts that ascend have all the numbers of others that do.
pub(crate) fn covers_all(base: &[(i128, i128)], parts: &[(i128, i128)]) -> bool
    requires base { is_ascending base.now ≡ true }
    requires parts { is_ascending parts.now ≡ true }
    ensures { result ≡ list_all (is_inside base.now) parts.now }
{
    let mut rest = base;
    for part in parts {
        match rest_from(rest, part) {
            Some(left) => rest = left,
            None => return false,
        }
    }
    true
}
