//! The words that begin lines.

ghost use Rattle.std.specs.Prelude.{◌≡◌};
ghost use Rattle.suite_play.specs.Commands.{verb_in};

/// The words that begin the lines after a header and its names.
#[derive(Clone, Copy)]
pub(crate) enum EventVerb {
    Begin,
    Sweep,
    Step,
    Run,
    Crash,
    Return,
    Forget,
    Audit,
}

impl EventVerb {
    pub(crate) fn of(word: &[u8]) -> Option<EventVerb>
        ensures { result ≡ verb_in word.now }
    {
        match word {
            b"begin" => Some(EventVerb::Begin),
            b"sweep" => Some(EventVerb::Sweep),
            b"step" => Some(EventVerb::Step),
            b"run" => Some(EventVerb::Run),
            b"crash" => Some(EventVerb::Crash),
            b"return" => Some(EventVerb::Return),
            b"forget" => Some(EventVerb::Forget),
            b"audit" => Some(EventVerb::Audit),
            _ => None,
        }
    }
}
