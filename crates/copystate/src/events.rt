// The events that a board's copy of a line meets.
ghost use Rattle.std.specs.Prelude.{◌≡◌};
ghost use Rattle.copystate.specs.Events.{event_code, of_another, heard};

// The own events first; the last three are messages of another board.
#[derive(Clone, Copy, PartialEq, Eq, Debug)]
pub enum Event {
    PostStore,
    SendGetS,
    SendGetM,
    Replace,
    OwnData,
    OwnUpg,
    OwnPutM,
    OtherGetS,
    OtherGetM,
    OtherUpg,
}

impl Event {
    // Every event, in the order of the codes.
    pub const ALL: [Event; 10] = [
        Event::PostStore,
        Event::SendGetS,
        Event::SendGetM,
        Event::Replace,
        Event::OwnData,
        Event::OwnUpg,
        Event::OwnPutM,
        Event::OtherGetS,
        Event::OtherGetM,
        Event::OtherUpg,
    ];

    // The event's place in a row of the table: a name for what `as` gives.
    pub fn code(self) -> usize
        ensures { result ≡ event_code self }
    {
        self as usize
    }

    // Whether the event is a message that another board sent.
    pub(crate) fn is_of_another(self) -> bool
        ensures { result ≡ of_another self }
    {
        matches!(self, Event::OtherGetS | Event::OtherGetM | Event::OtherUpg)
    }

    // What the other boards meet when a board meets this event.
    pub fn heard(self) -> Option<Event>
        ensures { result ≡ heard self }
    {
        match self {
            Event::SendGetS | Event::OtherGetS => Some(Event::OtherGetS),
            Event::SendGetM | Event::OtherGetM => Some(Event::OtherGetM),
            Event::OwnUpg | Event::OtherUpg => Some(Event::OtherUpg),
            Event::PostStore | Event::Replace | Event::OwnData | Event::OwnPutM => None,
        }
    }
}
