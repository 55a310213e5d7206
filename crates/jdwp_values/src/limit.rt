ghost use Rattle.std.specs.Prelude.{◌≡◌};
ghost use Rattle.jdwp_values.specs.Counts.{allows};

/// Which counts a place allows beside that no count is negative (JDWP, Detailed Command Information).
#[derive(Clone, Copy, Debug, PartialEq, Eq)]
pub enum Limit {
    /// Every count.
    Any,
    /// This count alone.
    Exactly(usize),
    /// This count and those below it.
    AtMost(usize),
    /// No count.
    Never,
}

impl Limit {
    /// Whether the place allows this count.
    pub fn allows(self, count: u32) -> bool
        ensures { result ≡ allows self count }
    {
        match self {
            Limit::Any => true,
            Limit::Exactly(asked) => count as usize == asked,
            Limit::AtMost(most) => count as usize <= most,
            Limit::Never => false,
        }
    }
}
