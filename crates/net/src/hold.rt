//! A hold on a net.
ghost use Rattle.std.specs.Prelude.{◌≡◌};

/// A decision that is owed to a net: it is lifted, cancelled or handed on, and cannot be let go.
pub struct Hold {
    pub(crate) mark: u16,
    pub(crate) badge: u16,
}

impl Hold {
    /// The mark of the net that it is of.
    pub fn mark(&self) -> u16
        ensures { result ≡ self.now.mark }
    {
        self.mark
    }

    /// The badge that it was taken with.
    pub fn badge(&self) -> u16
        ensures { result ≡ self.now.badge }
    {
        self.badge
    }

    // Ends it: what was owed is done.
    pub(crate) fn close(self) {
        let Hold { mark: _, badge: _ } = self;
    }
}
