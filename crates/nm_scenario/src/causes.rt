//! What the readers of modules, configurations and edits tell, as faults of a scenario: their words and places are kept.

ghost use Rattle.std.specs.Prelude.{◌≡◌, Some, None, Err, codes};
ghost use Rattle.nm_scenario_form.specs.Reading.{Gives};
ghost use Rattle.nm_scenario_form.specs.Read.{told};
ghost use Rattle.nm_scenario.specs.Causes as spec;

use nm_base::{Label, Tag};
use nm_json::JsonKind;
use nm_scenario_form::places::fault_here;
use nm_scenario_form::reader::fault_told;
use nm_scenario_form::{Cause, Inner, InnerPlace, ReadError, ScenarioKind};
use nm_schema_statements::Flaw;
use nm_yang::YangKind;
use std::alloc::Global;

// A cause with what a lower reader told.
fn caused(kind: ScenarioKind, what: Label, about: Option<Label>, place: InnerPlace) -> Cause
    ensures { result ≡ spec.caused kind what about place }
{
    Cause {
        kind,
        inner: Some(Inner { what, about, place }),
    }
}

fn text_word(kind: YangKind) -> &'static str
    ensures { result.now ≡ spec.text_word kind }
{
    match kind {
        YangKind::UnclosedQuote => "unclosed-quote",
        YangKind::UnclosedComment => "unclosed-comment",
        YangKind::UnclosedBrace => "unclosed-brace",
        YangKind::BadEscape => "bad-escape",
        YangKind::BadKeyword => "bad-keyword",
        YangKind::BadToken => "bad-token",
        YangKind::NotModule => "not-module",
        YangKind::Trailing => "trailing",
        YangKind::NotUtf8 => "not-utf8",
        YangKind::TooLong => "too-long",
        YangKind::TooDeep => "too-deep",
    }
}

/// The fault of a module's text that can't be read from a byte on.
pub fn text_fault<T>(alloc: Global, kind: YangKind, place: u32) -> Result<T, ReadError>
    ensures { Gives result (told (Err (spec.text_cause (record { place = place; kind = kind })))) }
{
    let what = Label::new(alloc, text_word(kind))?;
    let place = InnerPlace::Byte(place);
    fault_told(alloc, caused(ScenarioKind::Yang, what, None, place))
}

fn flaw_word(flaw: &Flaw) -> &'static str
    ensures { result.now ≡ spec.flaw_word flaw.now }
{
    match flaw {
        Flaw::Unsupported(_) => "unsupported",
        Flaw::Unknown(_) => "unknown",
        Flaw::Duplicate(_) => "duplicate",
        Flaw::BadReference(_) => "bad-reference",
        Flaw::BadArgument(_) => "bad-argument",
        Flaw::Cycle(_) => "cycle",
    }
}

fn flaw_name(flaw: Flaw) -> Label
    ensures { result ≡ spec.flaw_name flaw }
{
    match flaw {
        Flaw::Unsupported(name) => name,
        Flaw::Unknown(name) => name,
        Flaw::Duplicate(name) => name,
        Flaw::BadReference(name) => name,
        Flaw::BadArgument(name) => name,
        Flaw::Cycle(name) => name,
    }
}

/// The fault of a module whose statement at a byte is flawed.
pub fn flaw_fault<T>(alloc: Global, flaw: Flaw, place: u32) -> Result<T, ReadError>
    ensures { Gives result (told (Err (spec.flaw_cause flaw place))) }
{
    let what = Label::new(alloc, flaw_word(&flaw))?;
    let about = Some(flaw_name(flaw));
    let place = InnerPlace::Byte(place);
    fault_told(alloc, caused(ScenarioKind::Schema, what, about, place))
}

/// The fault of a module, whose own statement is at this byte, that makes the tree too large.
pub fn large_fault<T>(alloc: Global, place: u32) -> Result<T, ReadError>
    ensures { Gives result (told (Err (spec.large_cause place))) }
{
    let what = Label::new(alloc, "too-large")?;
    let place = InnerPlace::Byte(place);
    fault_told(alloc, caused(ScenarioKind::Schema, what, None, place))
}

fn data_word(kind: JsonKind) -> &'static str
    ensures { result.now ≡ spec.data_word kind }
{
    match kind {
        JsonKind::Unknown => "unknown",
        JsonKind::BadForm => "bad-form",
        JsonKind::BadValue => "bad-value",
        JsonKind::MissingKey => "missing-key",
        JsonKind::Repeated => "repeated",
    }
}

/// The fault of a configuration that can't be read at a path.
pub fn data_fault<T>(alloc: Global, kind: JsonKind, path: Label) -> Result<T, ReadError>
    ensures { Gives result (told (Err (spec.data_cause kind path))) }
{
    let what = Label::new(alloc, data_word(kind))?;
    let place = InnerPlace::Path(path);
    fault_told(alloc, caused(ScenarioKind::Content, what, None, place))
}

/// The fault of a configuration or an edit that is refused at a path.
pub fn refusal_fault<T>(
    alloc: Global,
    kind: ScenarioKind,
    tag: Tag,
    path: Label,
) -> Result<T, ReadError>
    ensures { Gives result (told (Err (spec.refusal_cause kind (record { tag = tag; path = path })))) }
{
    let what = Label::new(alloc, tag.text())?;
    let place = InnerPlace::Path(path);
    fault_told(alloc, caused(kind, what, None, place))
}

/// The fault of an edit that is refused at a path, or has too many nodes.
pub fn edit_fault<T>(alloc: Global, tag: Tag, path: Label) -> Result<T, ReadError>
    ensures { Gives result (told (Err (spec.edit_cause (record { tag = tag; path = path })))) }
{
    match tag {
        Tag::ResourceDenied => fault_here(alloc, ScenarioKind::TooMany),
        _ => refusal_fault(alloc, ScenarioKind::Content, tag, path),
    }
}
