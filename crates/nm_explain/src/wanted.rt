//! What was wanted where a part of a scenario is wrong by itself.

ghost use Rattle.std.specs.Prelude.{◌≡◌, None, option_copied};
ghost use Rattle.nm_explain.specs.Wanted as spec;

use nm_scenario_form::{ScenarioKind, Step};

/// What a kind of fault means.
pub(crate) fn of_kind(kind: ScenarioKind) -> &'static str
    ensures { result.now ≡ spec.of_kind kind }
{
    match kind {
        ScenarioKind::TooLong => "the input has more than 16,777,216 bytes",
        ScenarioKind::NotJson => "the input is not one JSON value",
        ScenarioKind::NotBuilt => "this is planned, and not there yet",
        ScenarioKind::Missing => "the member is missing",
        ScenarioKind::Unknown => "no member has this name",
        ScenarioKind::BadValue => "the value is none of those that may stand here",
        ScenarioKind::TooMany => "there are more than the limit",
        ScenarioKind::Yang => "the text is no module",
        ScenarioKind::Schema => "the module says what isn't taken",
        ScenarioKind::Content => "the configuration or the edit can't be read",
        ScenarioKind::Invalid => "the configuration isn't valid, or holds marks",
    }
}

/// What may stand in a member of a scenario, by the last name of a place.
#[tactic(auto, unfolding(crate::specs::Wanted::of_member))]
fn of_member(name: &str) -> &'static str
    ensures { result.now ≡ spec.of_member name.now }
{
    match name {
        "netm" => "wanted: the number 1",
        "contents" => "wanted: \"flat\" or \"yang\"",
        "modules" => "wanted: a list of at most 16 texts of modules",
        "devices" =>
            "wanted: a list of 1 to 32 devices, each an object with its running configuration",
        "running" => "wanted: an object of cells, or data of the modules",
        "changes" => "wanted: a list of at most 64 change sets",
        "timeout" => "wanted: seconds from 1 to 4294967295",
        _ => of_inner_member(name),
    }
}

#[tactic(auto, unfolding(crate::specs::Wanted::of_inner_member))]
fn of_inner_member(name: &str) -> &'static str
    ensures { result.now ≡ spec.of_inner_member name.now }
{
    match name {
        "edits" => "wanted: a list of one edit or more, by ascending devices",
        "device" => "wanted: the number of a device, above that of the edit before",
        "default" => "wanted: \"merge\", \"replace\" or \"none\"",
        "edit" =>
            "wanted: an object of cells with numbers or null, or an edit of data of the modules",
        "operators" => "wanted: a list of at most 16 operators",
        "user" => "wanted: a name of 1 to 64 bytes other than \"netm\"",
        _ => of_outer_member(name),
    }
}

#[tactic(auto, unfolding(crate::specs::Wanted::of_outer_member))]
fn of_outer_member(name: &str) -> &'static str
    ensures { result.now ≡ spec.of_outer_member name.now }
{
    match name {
        "script" => "wanted: an empty list",
        "faults" => "wanted: an empty list",
        "events" => "wanted: a list of events, each a word with its arguments",
        "drain" => "wanted: true or false",
        "trace" => "wanted: true or false",
        "notices" => "wanted: true or false",
        _ => "docs/FORMATS.md has what may stand here",
    }
}

// The innermost name of a place.
fn innermost(place: &[Step]) -> Option<&str>
    ensures { option_copied result ≡ spec.innermost None place.now }
{
    let mut found = None;
    for step in place {
        if let Step::Name(name) = step {
            found = Some(name.as_str());
        }
    }
    found
}

/// What may stand at a place: what the innermost name that it has wants.
pub(crate) fn at_place(place: &[Step]) -> &'static str
    ensures { result.now ≡ spec.at_place place.now }
{
    match innermost(place) {
        Some(name) => of_member(name),
        None => "docs/FORMATS.md has what may stand here",
    }
}
