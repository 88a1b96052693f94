//! Values of bits: the words of a text are found among the names, and written in order of position.

ghost use Rattle.std.specs.Prelude.{◌≡◌, ◌<◌, true, ℕ, ℤ, List, [], All, Option, map, fold, length, get_or, IfOk, OnOk, IfSome, is_some, string_bytes};
ghost use Rattle.std.specs.Ordering.{nat_cmp};
ghost use Rattle.std.specs.BTreeSet.{contains, IsOrdered};
ghost use Rattle.nm_types.specs.LeafType.{bits as bits_kind};
ghost use Rattle.nm_types.specs.Names.{Chooses};
ghost use Rattle.nm_types.specs.Reading.{words, are_bits, spaced, reading, Gives};

use crate::fault::ValueFault;
use crate::names::Names;
use crate::value::Value;
use nm_base::{Label, NoMemory};
use std::alloc::{AllocError, Global};
use std::collections::BTreeSet;

// The words of a text, which spaces part.
fn words(alloc: Global, text: &str) -> Result<Vec<&str>, AllocError>
    ensures { IfOk result (λ all. map (λ word. word.now) all.items ≡ words text.now) }
{
    text.split(' ')
        .filter(|word| !word.is_empty())
        .collect(alloc)
}

// The places of words among names, where each word is a name and comes once.
fn places_of(
    alloc: Global,
    names: &Names,
    words: &[&str],
) -> Result<Option<BTreeSet<usize>>, NoMemory>
    ensures bits { IfOk result (λ found. is_some found ≡ are_bits names.now (map (λ word. word.now) words.now)) }
    ensures places { IfOk result (λ found. IfSome found (λ places. Chooses names.now (map (λ word. word.now) words.now) places)) }
    ensures ordered { IfOk result (λ found. IfSome found (λ places. IsOrdered nat_cmp places)) }
{
    let mut places = BTreeSet::new(alloc);
    for word in words {
        let label = Label::new(alloc, word)?;
        let Some(place) = names.place(&label) else {
            return Ok(None);
        };
        if !places.insert(place)? {
            return Ok(None);
        }
    }
    Ok(Some(places))
}

// Puts a name behind those before it, parted by one space.
fn push_spaced(text: &mut String, name: &str) -> Result<(), AllocError>
    ensures { OnOk result (string_bytes text.new ≡ spaced (string_bytes text.old) name.now) }
{
    if !text.is_empty() {
        text.push(' ')?;
    }
    text.push_str(name)
}

// The names at some places, parted by one space.
fn text_at(alloc: Global, names: &[Label], places: &[usize]) -> Result<Label, NoMemory>
    requires { All (λ place. place < length names.now) places.now }
    ensures { IfOk result (λ label. label ≡ fold spaced [] (map (λ place. get_or names.now place []) places.now)) }
{
    let mut text = String::new(alloc);
    for place in places {
        push_spaced(&mut text, names[*place].as_str())?;
    }
    Label::new(alloc, text.as_str())
}

// The names at some places in their order, parted by one space.
fn bits_text(alloc: Global, names: &Names, places: &BTreeSet<usize>) -> Result<Label, NoMemory>
    requires { (i : ℕ) → contains nat_cmp places.now i ≡ true → i < length names.now }
    ensures { IfOk result (λ label. label ≡ fold spaced [] (map (λ place. get_or names.now place []) places.now.keys)) }
{
    let places: Vec<usize> = places.iter().copied().collect(alloc)?;
    text_at(alloc, names.as_slice(), &places)
}

// The value of a bits type that a text spells.
pub(crate) fn read_bits(alloc: Global, names: &Names, text: &str) -> Result<Value, ValueFault>
    ensures { (limits : Option (List (ℤ × ℤ))) → Gives result (reading (record { kind = bits_kind names.now; limits = limits }) text.now) }
{
    let words = words(alloc, text)?;
    let Some(places) = places_of(alloc, names, &words)? else {
        return Err(ValueFault::BadText);
    };
    Ok(Value::Bits(bits_text(alloc, names, &places)?))
}
