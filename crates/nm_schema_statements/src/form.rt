//! The forms of arguments by their keywords.

ghost use Rattle.std.specs.Prelude.{◌≡◌, Some, None, if◌then◌else◌};
ghost use Rattle.nm_schema_statements.specs.Flaw as spec;

use crate::fault::Fault;
use crate::nesting::is_undefaulted;
use crate::text::{
    is_builtin, is_count, is_digit_count, is_enum_name, is_identifier, is_left_out_type, is_limit,
    is_order, is_reference, is_some_text, is_truth, is_version,
};
use crate::word::Word;
use nm_base::Label;

fn has_form(word: Word, text: &str) -> bool
    ensures { result ≡ spec.has_form word text.now }
{
    match word {
        Word::Module => is_identifier(text),
        Word::YangVersion => is_version(text),
        Word::Namespace => is_some_text(text),
        Word::Prefix => is_identifier(text),
        Word::Import => is_identifier(text),
        Word::Container => is_identifier(text),
        Word::Leaf => is_identifier(text),
        Word::LeafList => is_identifier(text),
        Word::List => is_identifier(text),
        Word::Choice => is_identifier(text),
        Word::Case => is_identifier(text),
        Word::Type => is_reference(text),
        Word::Enum => is_enum_name(text),
        Word::Bit => is_identifier(text),
        Word::FractionDigits => is_digit_count(text),
        Word::Typedef => is_identifier(text) && !is_builtin(text),
        Word::Grouping => is_identifier(text),
        Word::Uses => is_reference(text),
        Word::Mandatory => is_truth(text),
        Word::MinElements => is_count(text),
        Word::MaxElements => is_limit(text),
        Word::Config => is_truth(text),
        Word::OrderedBy => is_order(text),
        _ => true,
    }
}

/// Each statement that is used has an argument of its form.
pub fn form_fault(word: Word, argument: &Option<Label>) -> Option<Fault>
    ensures { result ≡ spec.form_fault word argument.now }
{
    match argument {
        None => Some(Fault::BadArgument),
        Some(text) => {
            if has_form(word, text.as_str()) {
                return None;
            }
            Some(Fault::BadArgument)
        }
    }
}

#[tactic(auto, unfolding(crate::specs::Flaw::is_user))]
fn is_user(text: &str) -> bool
    ensures { result ≡ spec.is_user text.now }
{
    text == "user"
}

/// The text of an argument, empty where there is none.
pub fn text_of(argument: &Option<Label>) -> &str
    ensures { result.now ≡ spec.text_of argument.now }
{
    match argument {
        None => "",
        Some(text) => text.as_str(),
    }
}

fn fault_if(is: bool, fault: Fault) -> Option<Fault>
    ensures { result ≡ (if is then Some fault else None) }
{
    if is {
        return Some(fault);
    }
    None
}

/// What is left out by its argument or by where it stands.
pub fn left_out(parent: Option<Word>, word: Word, text: &str) -> Option<Fault>
    ensures { result ≡ spec.left_out parent word text.now }
{
    match word {
        Word::Type => fault_if(is_left_out_type(text), Fault::UnsupportedType),
        Word::OrderedBy => fault_if(is_user(text), Fault::Unsupported),
        Word::Default => fault_if(is_undefaulted(parent), Fault::Unsupported),
        _ => None,
    }
}
