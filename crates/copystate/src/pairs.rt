// Two boards at one line: which states may stand beside one another, and when an event is allowed.
ghost use Rattle.std.specs.Prelude.{◌≡◌};
ghost use Rattle.copystate.specs.Pairs.{bears, beside, before, allowed};
ghost use Rattle.copystate.specs.Table.{after_heard, hears};

use crate::events::Event;
use crate::states::State;

// Whether a board in `state` bears one in `other`.
fn bears_other(state: State, other: State) -> bool
    ensures { result ≡ bears state other }
{
    !(state.is_holder() && other.has_copy())
        && !(state.is_waiting_to_write() && other.has_copy() && !matches!(other, State::MIwb))
        && !(state.is_waiting() && other.is_modified())
}

pub(crate) fn are_beside(state: State, other: State) -> bool
    ensures { result ≡ beside state other }
{
    bears_other(state, other) && bears_other(other, state)
}

// Whether a board that waits in `state` may stand in the row before one that waits in `other`.
fn may_stand_before(state: State, other: State) -> bool
    ensures { result ≡ before state other }
{
    if other.is_waiting_to_write() {
        matches!(state, State::IMdI | State::ISdI)
    } else {
        !matches!(state, State::IMd)
    }
}

pub(crate) fn is_allowed(state: State, event: Event, other: State) -> bool
    ensures { result ≡ allowed state event other }
{
    match event {
        Event::OwnData => !other.is_holder()
            && (!other.is_waiting() || may_stand_before(state, other)),
        Event::OwnUpg => !other.is_waiting(),
        Event::OtherUpg => other.meets(Event::OtherUpg),
        _ => true,
    }
}

// A board after what it hears.
pub(crate) fn next_heard(state: State, heard: Option<Event>) -> State
    ensures { result ≡ after_heard state heard }
{
    heard.map_or(state, |event| state.next(event))
}

pub(crate) fn meets_heard(state: State, heard: Option<Event>) -> bool
    ensures { result ≡ hears state heard }
{
    heard.is_none_or(|event| state.meets(event))
}
