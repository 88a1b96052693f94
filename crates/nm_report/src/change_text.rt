//! What became of each change set at each of its devices, as lines of a report.

ghost use Rattle.std.specs.Prelude.{◌≡◌, ◌≤◌, ◌<◌, ◌+◌, ◌++◌, length, IfOk, OnOk};
ghost use Rattle.std.specs.List.{flat_map};
ghost use Rattle.nm_base.specs.Token.{token_of};
ghost use Rattle.nm_proto.specs.Plan.{devices_in};
ghost use Rattle.nm_recovery.specs.Recovery.{is_started, verdict_in, is_ended_in};
ghost use Rattle.nm_world.specs.Report.{report_of};
ghost use Rattle.nm_report.specs.Text.{decided_text, ended_text, state_text, change_line, change_line_of, change_text, change_texts, pair_text, outcome_line, outcome_line_of, outcome_text, outcome_texts, pair_line, pair_lines, outcome_word, report_text, start_text, running_lines, running_of, world_text};

use crate::details::Details;
use crate::notice_text::write_notices;
use crate::text::{HEADING, put, write_devices_running};
use crate::trace::{write_trace, write_verdict};
use nm_base::token::token_of;
use nm_base::{ChangeNo, DeviceMask, DeviceNo, Label, NoMemory, write_decimal};
use nm_history::{Outcome, Recorded, Telling, tellings_of};
use nm_proto::{ChangePlan, Content, Entry, Show, Verdict};
use nm_recovery::{is_ended_in, is_started, verdict_in};
use nm_world::{Pair, Report, TraceEntry, World};
use std::alloc::Global;

/// The line of a change set, with what the journal says of it.
#[tactic(auto, unfolding(crate::specs::Text::change_line))]
pub fn write_change(out: &mut Vec<u8>, change: ChangeNo, entries: &[Entry]) -> Result<(), NoMemory>
    ensures { OnOk result (out.new.items ≡ out.old.items ++ change_line change entries.now) }
{
    let verdict = verdict_in(entries, change);
    write_change_line(
        out,
        change,
        is_started(entries, change),
        &verdict,
        is_ended_in(entries, change),
    )
}

/// The line of a change set, by whether it was submitted, its verdict, and whether the manager is done with it.
#[tactic(auto, unfolding(crate::specs::Text::change_line_of))]
pub fn write_change_line(
    out: &mut Vec<u8>,
    change: ChangeNo,
    submitted: bool,
    verdict: &Option<Verdict>,
    ended: bool,
) -> Result<(), NoMemory>
    ensures { OnOk result (out.new.items ≡ out.old.items ++ change_line_of change submitted verdict.now ended) }
{
    put(out, "change ")?;
    write_decimal(u64::from(change.get()), out)?;
    put(out, " ")?;
    write_state(out, submitted, verdict, ended)?;
    put(out, "\n")
}

fn write_state(
    out: &mut Vec<u8>,
    submitted: bool,
    verdict: &Option<Verdict>,
    ended: bool,
) -> Result<(), NoMemory>
    ensures { OnOk result (out.new.items ≡ out.old.items ++ state_text submitted verdict.now ended) }
{
    if !submitted {
        return put(out, "unsubmitted");
    }
    write_decided(out, verdict)?;
    put(out, ended_word(ended))
}

fn write_decided(out: &mut Vec<u8>, verdict: &Option<Verdict>) -> Result<(), NoMemory>
    ensures { OnOk result (out.new.items ≡ out.old.items ++ decided_text verdict.now) }
{
    match verdict {
        Some(verdict) => write_verdict(out, verdict),
        None => put(out, "undecided"),
    }
}

fn ended_word(ended: bool) -> &'static str
    ensures { result.now ≡ ended_text ended }
{
    if ended { " ended" } else { "" }
}

fn write_pair(out: &mut Vec<u8>, change: ChangeNo, device: DeviceNo) -> Result<(), NoMemory>
    ensures { OnOk result (out.new.items ≡ out.old.items ++ pair_text change device) }
{
    put(out, " ")?;
    write_decimal(u64::from(change.get()), out)?;
    put(out, " ")?;
    write_decimal(u64::from(device.get()), out)?;
    Ok(())
}

fn word_of(outcome: Outcome) -> &'static str
    ensures { result.now ≡ outcome_word outcome }
{
    match outcome {
        Outcome::Never => "never",
        Outcome::Pending => "pending",
        Outcome::Confirmed => "confirmed",
        Outcome::Undone { .. } => "undone",
    }
}

/// What became of a change set at a device, by the word for it.
pub fn write_outcome_line(
    out: &mut Vec<u8>,
    change: ChangeNo,
    device: DeviceNo,
    word: &str,
) -> Result<(), NoMemory>
    ensures { OnOk result (out.new.items ≡ out.old.items ++ outcome_line_of change device word.now) }
{
    put(out, "outcome")?;
    write_pair(out, change, device)?;
    put(out, " ")?;
    put(out, word)?;
    put(out, "\n")
}

fn write_outcome(
    out: &mut Vec<u8>,
    change: ChangeNo,
    device: DeviceNo,
    outcome: Outcome,
) -> Result<(), NoMemory>
    ensures { OnOk result (out.new.items ≡ out.old.items ++ outcome_line change device outcome) }
{
    write_outcome_line(out, change, device, word_of(outcome))
}

// The outcome at the device of a number, where it is one of the change set.
#[tactic(auto, unfolding(crate::specs::Text::outcome_text))]
fn write_if_member<C: Content>(
    out: &mut Vec<u8>,
    change: ChangeNo,
    members: DeviceMask,
    number: usize,
    token: &Label,
    telling: &Telling<C>,
) -> Result<(), NoMemory>
    requires low { 1 ≤ number }
    requires high { number ≤ 32 }
    requires token { token.now ≡ token_of change }
    ensures { OnOk result (out.new.items ≡ out.old.items ++ outcome_text change members.0 number telling.now.history) }
{
    match DeviceNo::new(number as u8) {
        Some(device) if members.contains(device) => {
            write_outcome(out, change, device, telling.outcome(token))
        }
        _ => Ok(()),
    }
}

// A line for each device of a change set, with the outcome there.
fn write_outcomes<C: Content>(
    out: &mut Vec<u8>,
    change: ChangeNo,
    members: DeviceMask,
    token: &Label,
    devices: &[Telling<C>],
) -> Result<(), NoMemory>
    requires few { length devices.now ≤ 32 }
    requires token { token.now ≡ token_of change }
    ensures { OnOk result (out.new.items ≡ out.old.items ++ outcome_texts change members.0 1 devices.now) }
{
    for (place, device) in devices.iter().enumerate() {
        write_if_member(out, change, members, place + 1, token, device)?;
    }
    Ok(())
}

// What the journal says of a change set, and its outcomes.
#[tactic(auto, unfolding(crate::specs::Text::change_text))]
fn write_change_text<C: Content>(
    alloc: Global,
    out: &mut Vec<u8>,
    change: ChangeNo,
    plan: &ChangePlan,
    devices: &[Telling<C>],
    entries: &[Entry],
) -> Result<(), NoMemory>
    requires few { length devices.now ≤ 32 }
    ensures { OnOk result (out.new.items ≡ out.old.items ++ change_text devices.now entries.now change (devices_in plan.now.edits)) }
{
    let token = token_of(alloc, change)?;
    write_change(out, change, entries)?;
    write_outcomes(out, change, plan.devices(), &token, devices)
}

// The number of the change set at a place.
fn change_in(place: usize) -> ChangeNo
    requires few { place < 64 }
    ensures { result ≡ place + 1 }
{
    ChangeNo::new(place as u32 + 1).unwrap()
}

// All change sets, at devices with what their histories tell.
fn write_each_change<C: Content>(
    alloc: Global,
    out: &mut Vec<u8>,
    plans: &[ChangePlan],
    devices: &[Telling<C>],
    entries: &[Entry],
) -> Result<(), NoMemory>
    requires few { length plans.now ≤ 64 }
    requires few_devices { length devices.now ≤ 32 }
    ensures { OnOk result (out.new.items ≡ out.old.items ++ change_texts devices.now entries.now 1 plans.now) }
{
    for (place, plan) in plans.iter().enumerate() {
        write_change_text(alloc, out, change_in(place), plan, devices, entries)?;
    }
    Ok(())
}

// All change sets. It goes through each history once.
fn write_change_sets<C: Content>(
    alloc: Global,
    out: &mut Vec<u8>,
    plans: &[ChangePlan],
    devices: &[Recorded<C>],
    entries: &[Entry],
) -> Result<(), NoMemory>
    requires few { length plans.now ≤ 64 }
    requires few_devices { length devices.now ≤ 32 }
    ensures { OnOk result (out.new.items ≡ out.old.items ++ change_texts devices.now entries.now 1 plans.now) }
{
    let tellings = tellings_of(alloc, devices)?;
    write_each_change(alloc, out, plans, tellings.as_slice(), entries)
}

fn write_pair_line(out: &mut Vec<u8>, word: &str, pair: Pair) -> Result<(), NoMemory>
    ensures { OnOk result (out.new.items ≡ out.old.items ++ pair_line word.now pair) }
{
    put(out, word)?;
    write_pair(out, pair.change, pair.device)?;
    put(out, "\n")
}

fn write_some_pairs(out: &mut Vec<u8>, word: &str, pairs: &[Pair]) -> Result<(), NoMemory>
    ensures { OnOk result (out.new.items ≡ out.old.items ++ flat_map (pair_line word.now) pairs.now) }
{
    for pair in pairs {
        write_pair_line(out, word, *pair)?;
    }
    Ok(())
}

// A line for each of these pairs, or the word and `none`.
#[tactic(auto, unfolding(crate::specs::Text::pair_lines))]
fn write_pairs(out: &mut Vec<u8>, word: &str, pairs: &[Pair]) -> Result<(), NoMemory>
    ensures { OnOk result (out.new.items ≡ out.old.items ++ pair_lines word.now pairs.now) }
{
    match pairs {
        [] => {
            put(out, word)?;
            put(out, " none\n")
        }
        _ => write_some_pairs(out, word, pairs),
    }
}

/// The devices that differ and those that aren't settled.
pub fn write_report(out: &mut Vec<u8>, report: &Report) -> Result<(), NoMemory>
    ensures { OnOk result (out.new.items ≡ out.old.items ++ report_text report.now) }
{
    write_pairs(out, "differ", report.differ.as_slice())?;
    write_pairs(out, "unsettled", report.unsettled.as_slice())
}

// The beginning of a text.
#[tactic(auto, unfolding(crate::specs::Text::start_text))]
fn write_start(out: &mut Vec<u8>, trace: bool, trail: &[TraceEntry]) -> Result<(), NoMemory>
    ensures { OnOk result (out.new.items ≡ out.old.items ++ start_text trace trail.now) }
{
    put(out, HEADING)?;
    write_trace(out, trace, trail)
}

/// The text of a world and of what is reported of it: what came of each event where that is asked for, each change set with
/// its outcomes, the running configurations, the devices that the report names, and what each device tells of confirmed commits
/// where that is asked for.
pub fn write_world<C: Show + Drop>(
    alloc: Global,
    details: Details,
    world: &World<C>,
    report: &Report,
) -> Result<Vec<u8>, NoMemory>
    requires { report.now ≡ report_of world.now.setting world.now.state }
    ensures { IfOk result (λ text. text.items ≡ world_text (C.shown world.now.content) details world.now.setting world.now.state) }
{
    let mut text = Vec::new(alloc);
    let out = &mut text;
    write_start(out, details.trace, world.trail())?;
    write_change_sets(alloc, out, world.plans(), world.devices(), world.entries())?;
    write_devices_running(out, world.content(), world.devices())?;
    write_report(out, report)?;
    write_notices(alloc, out, details.notices, world.devices())?;
    Ok(text)
}
