//! Events: one method for each line of the table, and a reader that picks one by the event's word.

ghost use Rattle.std.specs.Prelude.{◌≡◌};
ghost use Rattle.serde_json.specs.View.{view};
ghost use Rattle.nm_scenario_form.specs.Reading.{Gives};
ghost use Rattle.nm_scenario_form.specs.Words.{item_count, is_word, natural_in};
ghost use Rattle.nm_scenario_form.specs.Form.{◌▹◌, arguments, done};
ghost use Rattle.nm_scenario_form.specs.Read.{read};
ghost use Rattle.nm_scenario_events.specs.Arguments.{change, device, operator, short, turns};
ghost use Rattle.nm_scenario_events.specs.Requests.{request_form};
ghost use Rattle.nm_scenario_events.specs.Events.{elementary_form, event_form, event_weight, events_form, is_right_round, is_within};
ghost use Rattle.nm_scenario_events.specs.declared.event.ReadEvent.TheVariants.{Other, Asked};
ghost use Rattle.nm_proto.specs.declared.plan.Event.TheVariants as event;

use crate::arguments::{Change, Counts, Device, Operator, Short, Turns};
use crate::event::ReadEvent;
use crate::limits::{CHANGE_LIMIT, EVENT_LIMIT, TURN_LIMIT};
use crate::requests::Requests;
use nm_proto::{Event, Listed};
use nm_scenario_form::lists::{is_word, item_count, natural_in};
use nm_scenario_form::{
    ItemReader, ReadError, Reader, Weigh, argument, no_word, read_weighed, takes,
};
use serde_json::Value;
use std::alloc::Global;

/// The events of a scenario with so many change sets, devices and operators, whose edits are read so.
#[derive(Drop)]
pub struct Events<'a, R> {
    pub counts: &'a Counts,
    pub edits: &'a R,
}

impl<'a, R: Reader> Events<'a, R> {
    fn change(&self) -> Change<'a>
        ensures { result.counts.now ≡ self.now.counts.now }
    {
        Change {
            counts: self.counts,
        }
    }

    fn device(&self) -> Device<'a>
        ensures { result.counts.now ≡ self.now.counts.now }
    {
        Device {
            counts: self.counts,
        }
    }

    fn operator(&self) -> Operator<'a>
        ensures { result.counts.now ≡ self.now.counts.now }
    {
        Operator {
            counts: self.counts,
        }
    }

    fn submit(&self, alloc: Global, part: &Value) -> Result<ReadEvent<R::Out>, ReadError>
        ensures { Gives result (read (arguments 1 (change self.now.counts.now ▹ done) (λ change. Other (event.Submit change))) (view part.now)) }
    {
        takes(alloc, part, 2, 2)?;
        let change = argument(alloc, part, 1, &self.change())?;
        Ok(ReadEvent::Other(Event::Submit { change }))
    }

    fn turn(&self, alloc: Global, part: &Value) -> Result<ReadEvent<R::Out>, ReadError>
        ensures { Gives result (read (arguments 1 (change self.now.counts.now ▹ done) (λ change. Other (event.Turn change))) (view part.now)) }
    {
        takes(alloc, part, 2, 2)?;
        let change = argument(alloc, part, 1, &self.change())?;
        Ok(ReadEvent::Other(Event::Turn { change }))
    }

    fn deliver(&self, alloc: Global, part: &Value) -> Result<ReadEvent<R::Out>, ReadError>
        ensures { Gives result (read (arguments 1 (change self.now.counts.now ▹ device self.now.counts.now ▹ short ▹ done)
            (λ change device link. Other (event.Deliver change device link))) (view part.now)) }
    {
        takes(alloc, part, 4, 4)?;
        let change = argument(alloc, part, 1, &self.change())?;
        let device = argument(alloc, part, 2, &self.device())?;
        let link = argument(alloc, part, 3, &Short)?;
        Ok(ReadEvent::Other(Event::Deliver {
            change,
            device,
            link,
        }))
    }

    fn answer(&self, alloc: Global, part: &Value) -> Result<ReadEvent<R::Out>, ReadError>
        ensures { Gives result (read (arguments 1 (change self.now.counts.now ▹ device self.now.counts.now ▹ short ▹ short ▹ done)
            (λ change device link number. Other (event.Answer change device link number))) (view part.now)) }
    {
        takes(alloc, part, 5, 5)?;
        let change = argument(alloc, part, 1, &self.change())?;
        let device = argument(alloc, part, 2, &self.device())?;
        let link = argument(alloc, part, 3, &Short)?;
        let number = argument(alloc, part, 4, &Short)?;
        Ok(ReadEvent::Other(Event::Answer {
            change,
            device,
            link,
            number,
        }))
    }

    // The manager's side of a link ends.
    fn break_link(&self, alloc: Global, part: &Value) -> Result<ReadEvent<R::Out>, ReadError>
        ensures { Gives result (read (arguments 1 (change self.now.counts.now ▹ device self.now.counts.now ▹ done)
            (λ change device. Other (event.Break change device))) (view part.now)) }
    {
        takes(alloc, part, 3, 3)?;
        let change = argument(alloc, part, 1, &self.change())?;
        let device = argument(alloc, part, 2, &self.device())?;
        Ok(ReadEvent::Other(Event::Break { change, device }))
    }

    fn lose(&self, alloc: Global, part: &Value) -> Result<ReadEvent<R::Out>, ReadError>
        ensures { Gives result (read (arguments 1 (change self.now.counts.now ▹ device self.now.counts.now ▹ short ▹ done)
            (λ change device link. Other (event.Lose change device link))) (view part.now)) }
    {
        takes(alloc, part, 4, 4)?;
        let change = argument(alloc, part, 1, &self.change())?;
        let device = argument(alloc, part, 2, &self.device())?;
        let link = argument(alloc, part, 3, &Short)?;
        Ok(ReadEvent::Other(Event::Lose {
            change,
            device,
            link,
        }))
    }

    fn advance(&self, alloc: Global, part: &Value) -> Result<ReadEvent<R::Out>, ReadError>
        ensures { Gives result (read (arguments 1 (device self.now.counts.now ▹ short ▹ done)
            (λ device seconds. Other (event.Advance device seconds))) (view part.now)) }
    {
        takes(alloc, part, 3, 3)?;
        let device = argument(alloc, part, 1, &self.device())?;
        let seconds = argument(alloc, part, 2, &Short)?;
        Ok(ReadEvent::Other(Event::Advance { device, seconds }))
    }

    fn restart(&self, alloc: Global, part: &Value) -> Result<ReadEvent<R::Out>, ReadError>
        ensures { Gives result (read (arguments 1 (device self.now.counts.now ▹ done) (λ device. Other (event.Restart device))) (view part.now)) }
    {
        takes(alloc, part, 2, 2)?;
        let device = argument(alloc, part, 1, &self.device())?;
        Ok(ReadEvent::Other(Event::Restart { device }))
    }

    fn forget(&self, alloc: Global, part: &Value) -> Result<ReadEvent<R::Out>, ReadError>
        ensures { Gives result (read (arguments 1 (change self.now.counts.now ▹ done) (λ change. Other (event.Forget change))) (view part.now)) }
    {
        takes(alloc, part, 2, 2)?;
        let change = argument(alloc, part, 1, &self.change())?;
        Ok(ReadEvent::Other(Event::Forget { change }))
    }

    fn crash(&self, alloc: Global, part: &Value) -> Result<ReadEvent<R::Out>, ReadError>
        ensures { Gives result (read (arguments 1 done (Other event.Crash)) (view part.now)) }
    {
        takes(alloc, part, 1, 1)?;
        Ok(ReadEvent::Other(Event::Crash))
    }

    fn foreign(&self, alloc: Global, part: &Value) -> Result<ReadEvent<R::Out>, ReadError>
        ensures { Gives result (read (arguments 1 (operator self.now.counts.now ▹ device self.now.counts.now
            ▹ request_form (R.form self.now.edits.now) ▹ done) Asked) (view part.now)) }
    {
        takes(alloc, part, 4, 4)?;
        let operator = argument(alloc, part, 1, &self.operator())?;
        let device = argument(alloc, part, 2, &self.device())?;
        let request = argument(alloc, part, 3, &Requests { edits: self.edits })?;
        Ok(ReadEvent::Asked {
            operator,
            device,
            request,
        })
    }

    fn leave(&self, alloc: Global, part: &Value) -> Result<ReadEvent<R::Out>, ReadError>
        ensures { Gives result (read (arguments 1 (operator self.now.counts.now ▹ device self.now.counts.now ▹ done)
            (λ operator device. Other (event.Leave operator device))) (view part.now)) }
    {
        takes(alloc, part, 3, 3)?;
        let operator = argument(alloc, part, 1, &self.operator())?;
        let device = argument(alloc, part, 2, &self.device())?;
        Ok(ReadEvent::Other(Event::Leave { operator, device }))
    }

    fn renew(&self, alloc: Global, part: &Value) -> Result<ReadEvent<R::Out>, ReadError>
        ensures { Gives result (read (arguments 1 (change self.now.counts.now ▹ device self.now.counts.now ▹ done)
            (λ change device. Other (event.Renew change device))) (view part.now)) }
    {
        takes(alloc, part, 3, 3)?;
        let change = argument(alloc, part, 1, &self.change())?;
        let device = argument(alloc, part, 2, &self.device())?;
        Ok(ReadEvent::Other(Event::Renew { change, device }))
    }

    fn round(&self, alloc: Global, part: &Value) -> Result<ReadEvent<R::Out>, ReadError>
        ensures { Gives result (read (arguments 1 (change self.now.counts.now ▹ turns ▹ done)
            (λ change turns. Other (event.Round change turns))) (view part.now)) }
    {
        takes(alloc, part, 3, 3)?;
        let change = argument(alloc, part, 1, &self.change())?;
        let turns = argument(alloc, part, 2, &Turns)?;
        Ok(ReadEvent::Other(Event::Round { change, turns }))
    }

    #[tactic(auto, unfolding(crate::specs::Events::elementary_form))]
    fn elementary(&self, alloc: Global, part: &Value) -> Result<ReadEvent<R::Out>, ReadError>
        ensures { Gives result (read (elementary_form (R.form self.now.edits.now) self.now.counts.now) (view part.now)) }
    {
        if is_word(part, "submit") {
            return self.submit(alloc, part);
        }
        if is_word(part, "turn") {
            return self.turn(alloc, part);
        }
        if is_word(part, "deliver") {
            return self.deliver(alloc, part);
        }
        if is_word(part, "answer") {
            return self.answer(alloc, part);
        }
        if is_word(part, "break") {
            return self.break_link(alloc, part);
        }
        if is_word(part, "lose") {
            return self.lose(alloc, part);
        }
        if is_word(part, "advance") {
            return self.advance(alloc, part);
        }
        if is_word(part, "restart") {
            return self.restart(alloc, part);
        }
        if is_word(part, "forget") {
            return self.forget(alloc, part);
        }
        if is_word(part, "crash") {
            return self.crash(alloc, part);
        }
        if is_word(part, "foreign") {
            return self.foreign(alloc, part);
        }
        if is_word(part, "leave") {
            return self.leave(alloc, part);
        }
        if is_word(part, "renew") {
            return self.renew(alloc, part);
        }
        no_word(alloc, part)
    }
}

impl<'a, R: Reader> ItemReader for Events<'a, R> {
    type Out = ReadEvent<R::Out>;

    ghost form = { λ r _ _. event_form (R.form r.edits.now) r.counts.now };

    #[tactic(auto, unfolding(crate::specs::Events::event_form))]
    fn read(
        &self,
        alloc: Global,
        _whole: &Value,
        _place: usize,
        part: &Value,
    ) -> Result<ReadEvent<R::Out>, ReadError> {
        if is_word(part, "round") {
            return self.round(alloc, part);
        }
        self.elementary(alloc, part)
    }
}

fn is_within(number: Option<u64>, low: u64, high: u64) -> bool
    ensures { result ≡ is_within low high number }
{
    match number {
        None => false,
        Some(number) => low <= number && number <= high,
    }
}

// Whether a round's numbers are right.
fn is_right_round(part: &Value, counts: &Counts) -> bool
    ensures { result ≡ is_right_round counts.now (view part.now) }
{
    let last = counts.changes.min(CHANGE_LIMIT) as u64;
    is_word(part, "round")
        && item_count(part) == 3
        && is_within(natural_in(part, 1), 1, last)
        && is_within(natural_in(part, 2), 1, TURN_LIMIT)
}

// How many elementary events the elements stand for.
#[derive(Drop)]
struct Weights<'a> {
    counts: &'a Counts,
}

impl<'a> Weigh for Weights<'a> {
    ghost weight = { λ r. event_weight r.counts.now };

    #[tactic(auto, unfolding(crate::specs::Events::event_weight))]
    fn weight(&self, part: &Value) -> u64 {
        if !is_right_round(part, self.counts) {
            return 1;
        }
        match natural_in(part, 2) {
            Some(turns) if turns <= TURN_LIMIT => 3 * turns,
            _ => unreachable!(),
        }
    }
}

impl<'a, R: Reader> Reader for Events<'a, R> {
    type Out = Listed<ReadEvent<R::Out>>;

    ghost form = { λ r. events_form (R.form r.edits.now) r.counts.now };

    #[tactic(auto, unfolding(crate::specs::Events::events_form))]
    fn read(&self, alloc: Global, part: &Value) -> Result<Listed<ReadEvent<R::Out>>, ReadError> {
        let scale = Weights {
            counts: self.counts,
        };
        read_weighed(alloc, part, 0, EVENT_LIMIT, &scale, self)
    }
}
