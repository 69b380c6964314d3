//! Who sees stored trees.

ghost use Rattle.std.specs.Prelude.{◌≡◌, ◌↔◌, IsTrue};

/// Who sees trees on the desk's board once they are stored. If nobody asks, none is shown, and so none is kept in memory.
#[derive(Clone, Copy)]
pub enum Audience {
    /// Those who look at the board.
    Readers,
    /// Nobody looks at the board.
    Nobody,
}

impl Audience {
    // Whether anyone looks at the board.
    pub(crate) fn sees(self) -> bool
        ensures { IsTrue result ↔ (self ≡ Audience.Readers) }
    {
        matches!(self, Audience::Readers)
    }
}
