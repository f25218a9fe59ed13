//! The command line: what is asked for.

ghost use Rattle.std.specs.Prelude.{◌≡◌, map};
ghost use Rattle.explore.specs.Words.{choice_in, first_reading, from_one, is_at_odds, is_ordered, is_sampled, large, small};
ghost use Rattle.explore.specs.Words.{wanted_by, wanted_of, wide, with_number, with_option, with_word};

use script_text::read_number;

/// How much may happen; how many worlds are looked at, or how many orders are played, and by which seed they are drawn;
/// and whether it is told in which order jobs are decided.
#[derive(Clone, Copy)]
pub(crate) struct Bounds {
    pub(crate) crashes: u8,
    pub(crate) returns: u8,
    pub(crate) forgets: u8,
    pub(crate) stops: u8,
    pub(crate) worlds: u32,
    pub(crate) orders: Option<u32>,
    pub(crate) seed: Option<u64>,
    pub(crate) ordered: bool,
}

/// What is printed: all ways, or the script that leads to one of them.
#[derive(Clone, Copy)]
pub(crate) struct Wish {
    pub(crate) bounds: Bounds,
    pub(crate) is_brief: bool,
    pub(crate) way: Option<u32>,
}

impl Wish {
    /// Whether orders are played that are drawn.
    pub(crate) fn is_sampled(&self) -> bool
        ensures { result ≡ is_sampled self.now }
    {
        self.bounds.orders.is_some()
    }

    /// Whether a seed is told where nothing is drawn, or the order of decisions is asked for where something is.
    fn is_at_odds(&self) -> bool
        ensures { result ≡ is_at_odds self.now }
    {
        self.bounds.seed.is_some() && !self.is_sampled() || self.bounds.ordered && self.is_sampled()
    }
}

impl Bounds {
    /// Whether it is told in which order jobs are decided.
    pub(crate) fn is_ordered(&self) -> bool
        ensures { result ≡ is_ordered self.now }
    {
        self.ordered && self.orders.is_none()
    }
}

/// What the words of the command line ask for: to explore a script, and perhaps to tell meanwhile how far that is.
#[derive(Clone, Copy)]
pub(crate) struct Wanted {
    pub(crate) wish: Wish,
    pub(crate) tells_progress: bool,
}

/// An option that takes a number.
#[derive(Clone, Copy)]
pub(crate) enum Choice {
    Crashes,
    Returns,
    Forgets,
    Stops,
    Worlds,
    Sample,
    Seed,
    Way,
}

/// What words asked for so far, and the option whose number comes next.
#[derive(Clone, Copy)]
pub(crate) struct Reading {
    pub(crate) wanted: Wanted,
    pub(crate) option: Option<Choice>,
}

/// What the words of the command line ask for, if they ask for something.
pub(crate) fn read_words(words: &[&str]) -> Option<Wanted>
    ensures { result ≡ wanted_by (map (λ word. word.now) words.now) }
{
    let mut reading = first_reading();
    for word in words {
        reading = with_word(reading, word.as_bytes())?;
    }
    wanted_of(reading)
}

/// All ways, where nothing crashes and nobody stops.
fn first_reading() -> Reading
    ensures { result ≡ first_reading }
{
    Reading {
        wanted: Wanted {
            wish: Wish {
                bounds: Bounds {
                    crashes: 0,
                    returns: 0,
                    forgets: 0,
                    stops: 0,
                    worlds: u32::MAX,
                    orders: None,
                    seed: None,
                    ordered: false,
                },
                is_brief: false,
                way: None,
            },
            tells_progress: false,
        },
        option: None,
    }
}

/// What is asked for with a word more, if it says something.
fn with_word(reading: Reading, word: &[u8]) -> Option<Reading>
    ensures { result ≡ with_word reading word.now }
{
    match reading.option {
        Some(choice) => Some(Reading {
            wanted: Wanted {
                wish: with_number(reading.wanted.wish, choice, word)?,
                tells_progress: reading.wanted.tells_progress,
            },
            option: None,
        }),
        None => with_option(reading, word),
    }
}

/// What is asked for with an option more, if a word is one.
fn with_option(reading: Reading, word: &[u8]) -> Option<Reading>
    ensures { result ≡ with_option reading word.now }
{
    let mut next = reading;
    if word == b"--brief".as_slice() {
        next.wanted.wish.is_brief = true;
    } else if word == b"--progress".as_slice() {
        next.wanted.tells_progress = true;
    } else if word == b"--order".as_slice() {
        next.wanted.wish.bounds.ordered = true;
    } else {
        next.option = Some(choice_in(word)?);
    }
    Some(next)
}

/// The option that a word is, of those that take a number.
fn choice_in(word: &[u8]) -> Option<Choice>
    ensures { result ≡ choice_in word.now }
{
    if word == b"--crashes".as_slice() {
        Some(Choice::Crashes)
    } else if word == b"--returns".as_slice() {
        Some(Choice::Returns)
    } else if word == b"--forgets".as_slice() {
        Some(Choice::Forgets)
    } else if word == b"--stops".as_slice() {
        Some(Choice::Stops)
    } else if word == b"--worlds".as_slice() {
        Some(Choice::Worlds)
    } else if word == b"--sample".as_slice() {
        Some(Choice::Sample)
    } else if word == b"--seed".as_slice() {
        Some(Choice::Seed)
    } else if word == b"--way".as_slice() {
        Some(Choice::Way)
    } else {
        None
    }
}

/// What an option and its number ask for, if a word is such a number.
fn with_number(wish: Wish, choice: Choice, word: &[u8]) -> Option<Wish>
    ensures { result ≡ with_number wish choice word.now }
{
    let mut next = wish;
    match choice {
        Choice::Crashes => next.bounds.crashes = small(word)?,
        Choice::Returns => next.bounds.returns = small(word)?,
        Choice::Forgets => next.bounds.forgets = small(word)?,
        Choice::Stops => next.bounds.stops = small(word)?,
        Choice::Worlds => next.bounds.worlds = large(word)?,
        Choice::Sample => next.bounds.orders = Some(from_one(large(word)?)?),
        Choice::Seed => next.bounds.seed = Some(wide(word)?),
        Choice::Way => next.way = Some(from_one(large(word)?)?),
    }
    Some(next)
}

/// A number that counts from 1.
fn from_one(number: u32) -> Option<u32>
    ensures { result ≡ from_one number }
{
    if number == 0 { None } else { Some(number) }
}

/// A number up to 255.
fn small(word: &[u8]) -> Option<u8>
    ensures { result ≡ small word.now }
{
    match read_number(word, u64::from(u8::MAX)) {
        Some(number) => Some(number as u8),
        None => None,
    }
}

/// A number of 32 bits.
fn large(word: &[u8]) -> Option<u32>
    ensures { result ≡ large word.now }
{
    match read_number(word, u64::from(u32::MAX)) {
        Some(number) => Some(number as u32),
        None => None,
    }
}

/// A number of 64 bits.
fn wide(word: &[u8]) -> Option<u64>
    ensures { result ≡ wide word.now }
{
    read_number(word, u64::MAX)
}

/// What is asked for where no more words come: no option is left without its number.
fn wanted_of(reading: Reading) -> Option<Wanted>
    ensures { result ≡ wanted_of reading }
{
    if reading.option.is_some() || reading.wanted.wish.is_at_odds() {
        return None;
    }
    Some(reading.wanted)
}
