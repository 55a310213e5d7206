/// A version of scripts. The first spells a value's bits as numbers below 2^63, the second as texts.
#[derive(Clone, Copy, Debug, PartialEq, Eq)]
pub enum Version {
    First,
    Second,
}
