//! What a look at a link came to.
ghost use Rattle.std.specs.Prelude.{◌≡◌, false};
ghost use Rattle.foreman_run.specs.Looks.{is_over};

/// What a look at a link came to.
#[derive(Clone, Copy, Debug, PartialEq, Eq)]
pub enum Look {
    /// Nothing was there.
    Nothing,
    /// Bytes were there, or the link is to be left.
    Bytes,
    /// A message was there, and more may be.
    Message,
    /// The work is over.
    Over,
}

impl Look {
    // What taking bytes came to.
    pub(crate) fn of(did: bool) -> Look
        ensures { is_over result ≡ false }
    {
        if did { Look::Bytes } else { Look::Nothing }
    }

    // What it came to together with what was done before it.
    pub(crate) fn after(self, did: bool) -> Look
        ensures { is_over result ≡ is_over self }
    {
        match self {
            Look::Nothing if did => Look::Bytes,
            _ => self,
        }
    }

    // Whether anything was there.
    pub(crate) fn did(self) -> bool {
        self != Look::Nothing
    }
}
