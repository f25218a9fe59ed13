//! How lines and operations are written, as data.

/// What a word is, in the place where it stands.
#[derive(Clone, Copy, PartialEq, Eq, Debug)]
pub enum Place {
    Servers,
    Agents,
    OpeningVotes,
    Uid,
    Gid,
    Init,
    Budget,
    Quota,
    Slots,
    Old,
    UserName,
    GroupName,
    Agent,
    Server,
    Site,
    Steps,
    Gids,
    Path,
    Contents,
    Lists,
    Votes,
}

/// What comes after the places of a form.
#[derive(Clone, Copy, PartialEq, Eq, Debug)]
pub enum FormEnding {
    /// Nothing.
    Whole,
    /// One word more, in its place, or nothing.
    Perhaps(Place),
    /// Operations.
    Operations,
}

/// The form of a line or an operation: the word with which it begins, the places after that word, and what it does.
#[derive(Clone, Copy)]
pub struct LineForm {
    pub word: &'static [u8],
    pub places: &'static [Place],
    pub ending: FormEnding,
    pub does: &'static [u8],
}

/// The forms of the lines of a command's scripts, each part in the order in which its lines stand.
#[derive(Clone, Copy)]
pub struct Forms {
    /// The lines of the header: each has to be there.
    pub header: &'static [LineForm],
    /// A line at the header's end that may be missing.
    pub optional: &'static [LineForm],
    /// The lines that name users and groups.
    pub names: &'static [LineForm],
    /// The lines of the command's own.
    pub own: &'static [LineForm],
}
