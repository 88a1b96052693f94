//! What is read of a scenario and no text shows, and places beyond what a scenario can hold.

use nm_base::{EditNo, Label, NoMemory};
use nm_proto::{Event, Request};
use nm_scenario::{Scenario, read_scenario};
use nm_scenario_events::edit_number;
use nm_scenario_form::Step;
use nm_scenario_form::pointer::write_place;
use std::alloc::Global;
use std::test::Fail;

// The user whose session the first event opens.
fn first_user(scenario: &Scenario) -> Option<&str> {
    match scenario.events.get(0)? {
        Event::Foreign {
            request: Request::OpenSession { user },
            ..
        } => Some(user.as_str()),
        _ => None,
    }
}

const OPERATED: &str =
    r#"{"netm":1,"contents":"flat","devices":[{"running":{}}],"operators":[{"user":"ann"},{"user":"bob"}],"events":[["foreign",2,1,["open"]]]}"#;

// A session has the name of its operator's user.
#[test]
fn sessions_have_users(rt: HostRuntime) -> Result<(), Fail> {
    let Ok(scenario) = read_scenario(rt.alloc(), OPERATED.as_bytes()) else {
        return Err(Fail::new("refused"));
    };
    assert!(rt; first_user(&scenario) == Some("bob"));
    Ok(())
}

// An edit's number has 32 bits.
#[test]
fn edits_have_numbers(rt: HostRuntime) {
    assert!(rt; edit_number(4, 5) == Ok(EditNo(9)) && edit_number(1, usize::MAX) == Err(NoMemory));
}

fn written(alloc: Global, place: &[Step]) -> Result<Vec<u8>, Fail> {
    let mut out = Vec::from_slice(alloc, b"at ")?;
    write_place(alloc, &mut out, place)?;
    Ok(out)
}

// Fails where this isn't written of names in one another.
fn names_are_written(alloc: Global, names: &str, want: &str) -> Result<(), Fail> {
    let mut place = Vec::new(alloc);
    for name in names.split(' ') {
        place.push(Step::Name(Label::new(alloc, name)?))?;
    }
    if written(alloc, place.as_slice())?.as_slice() == want.as_bytes() {
        return Ok(());
    }
    Err(Fail::new(want))
}

// Names stand in one another in no scenario, and no list has so many items.
#[test]
fn places_are_written(rt: HostRuntime) -> Result<(), Fail> {
    let alloc = rt.alloc();
    names_are_written(alloc, "0 -", "at /0/-")?;
    names_are_written(alloc, "a  b", "at /a//b")?;
    let items = [Step::Item(10), Step::Item(4294967295)];
    assert!(rt; written(alloc, &items)?.as_slice() == b"at /10/4294967295".as_slice());
    Ok(())
}

fn length_of_tens(alloc: Global, steps: usize) -> Result<usize, Fail> {
    let mut place = Vec::new(alloc);
    for _ in 0..steps {
        place.push(Step::Item(10))?;
    }
    Ok(written(alloc, place.as_slice())?.len())
}

// Steps of three bytes each, behind `at `: 1365 of them make 4095 bytes, and a pointer has at most 4096.
#[test]
fn long_ways_are_cut(rt: HostRuntime) -> Result<(), Fail> {
    assert!(rt; length_of_tens(rt.alloc(), 1365)? == 4098);
    assert!(rt; length_of_tens(rt.alloc(), 1366)? == 4099);
    assert!(rt; length_of_tens(rt.alloc(), 2000)? == 4099);
    Ok(())
}
