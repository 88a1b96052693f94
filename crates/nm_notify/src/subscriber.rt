//! The subscribers of a stream, by how far each has come with its notices.

ghost use Rattle.std.specs.Prelude.{◌≡◌, filter, not};
ghost use Rattle.std.specs.List.{list_any};
ghost use Rattle.nm_notify.specs.Subscribers.{gone_on, is_before, is_numbered, place_of};

/// A subscriber, and the place of the notice that it gets next, counted from the stream's first one.
#[derive(Clone, Copy)]
pub(crate) struct Subscriber {
    pub(crate) number: u32,
    pub(crate) place: usize,
}

impl Subscriber {
    /// Whether the subscriber has this number.
    pub(crate) fn is_numbered(&self, number: u32) -> bool
        ensures { result ≡ is_numbered number self.now }
    {
        self.number == number
    }

    /// Whether something is left for the subscriber of the notices before this place.
    pub(crate) fn is_before(&self, end: usize) -> bool
        ensures { result ≡ is_before end self.now }
    {
        self.place < end
    }
}

/// The place of what the subscriber of a number gets of the notices before `end`; what stands behind it is next from then on. None
/// where nobody has the number, or nothing is left.
pub(crate) fn take_place(
    subscribers: &mut Vec<Subscriber>,
    number: u32,
    end: usize,
) -> Option<usize>
    ensures place { result ≡ place_of number end subscribers.old.items }
    ensures after { subscribers.new.items ≡ gone_on number end subscribers.old.items }
{
    for at in 0..subscribers.len() {
        let subscriber = subscribers[at];
        if subscriber.is_numbered(number) {
            if subscriber.place >= end {
                return None;
            }
            subscribers[at] = Subscriber {
                number: subscriber.number,
                place: subscriber.place + 1,
            };
            return Some(subscriber.place);
        }
    }
    None
}

/// Whether one has this number.
pub(crate) fn any_numbered(subscribers: &[Subscriber], number: u32) -> bool
    ensures { result ≡ list_any (is_numbered number) subscribers.now }
{
    subscribers.iter().any(|one| one.is_numbered(number))
}

/// Whether something is left for one of the notices before this place.
pub(crate) fn any_before(subscribers: &[Subscriber], end: usize) -> bool
    ensures { result ≡ list_any (is_before end) subscribers.now }
{
    subscribers.iter().any(|one| one.is_before(end))
}

/// Lets go of who has this number.
pub(crate) fn drop_numbered(subscribers: &mut Vec<Subscriber>, number: u32)
    ensures { subscribers.new.items ≡ filter (λ s. not (is_numbered number s)) subscribers.old.items }
{
    subscribers.retain(|one| !one.is_numbered(number));
}
