//! What the answers of a group have in common.
ghost use Rattle.std.specs.Prelude.{◌≡◌};
ghost use Rattle.mailmap_suggestions.specs.Suggestions.{is_of_several, needs_review};
ghost use Rattle.mailmap_suggestions.specs.Views.{kind_of};

/// What the answers of a group have in common.
#[derive(Clone, Copy)]
pub enum Kind<'a> {
    /// An email, whatever the case of ASCII letters.
    Email,
    /// An email that several people share, spelled as in the first of the answers. Nothing is suggested for them.
    SharedEmail(&'a [u8]),
    /// A name, whatever the case of ASCII letters.
    Name,
    /// Names that are alike, of which not all are one.
    Alike,
    /// The login of an email and the name of another answer.
    Login(&'a [u8]),
}

impl Kind<'_> {
    /// Whether somebody has to look at the entries first, since the answers may be those of two people.
    pub fn needs_review(self) -> bool
        ensures { result ≡ needs_review (kind_of self.entry) }
    {
        matches!(self, Kind::Name | Kind::Alike | Kind::Login(_))
    }

    pub(crate) fn is_of_several(self) -> bool
        ensures { result ≡ is_of_several (kind_of self.entry) }
    {
        matches!(self, Kind::SharedEmail(_))
    }
}
