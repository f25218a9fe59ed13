//! The words that begin an item.

ghost use Rattle.std.specs.Prelude.{◌≡◌};
ghost use Rattle.acl_text.specs.Keywords.{is_default, keyword_of, single_keyword_of};

/// The kind of entry that an item is about.
#[derive(Clone, Copy)]
pub(crate) enum Keyword {
    User,
    Group,
    Mask,
    Other,
}

impl Keyword {
    /// The keyword that a field is: a word, or its first letter.
    pub(crate) fn of(field: &[u8]) -> Option<Keyword>
        ensures { result ≡ keyword_of field.now }
    {
        match field {
            b"user" | b"u" => Some(Keyword::User),
            b"group" | b"g" => Some(Keyword::Group),
            _ => Keyword::single(field),
        }
    }

    /// The same, of the kinds of which a list has one entry at most.
    pub(crate) fn single(field: &[u8]) -> Option<Keyword>
        ensures { result ≡ single_keyword_of field.now }
    {
        match field {
            b"mask" | b"m" => Some(Keyword::Mask),
            b"other" | b"o" => Some(Keyword::Other),
            _ => None,
        }
    }
}

/// Whether a field says that its item is of a default list.
pub(crate) fn is_default(field: &[u8]) -> bool
    ensures { result ≡ is_default field.now }
{
    field == b"default".as_slice() || field == b"d".as_slice()
}
