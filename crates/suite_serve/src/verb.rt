//! The words that begin lines.

ghost use Rattle.std.specs.Prelude.{◌≡◌};
ghost use Rattle.suite_serve.specs.Commands.{verb_in};

/// The words that begin the lines after a header and its names.
#[derive(Clone, Copy)]
pub(crate) enum JobVerb {
    Do,
    Sweep,
    Together,
}

impl JobVerb {
    pub(crate) fn of(word: &[u8]) -> Option<JobVerb>
        ensures { result ≡ verb_in word.now }
    {
        match word {
            b"do" => Some(JobVerb::Do),
            b"sweep" => Some(JobVerb::Sweep),
            b"together" => Some(JobVerb::Together),
            _ => None,
        }
    }
}
