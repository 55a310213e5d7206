/// Why no value is read from a text (DAP specification, SetVariable request, value; JDWP, Constants, Tag).
#[derive(Clone, Copy, Debug, PartialEq, Eq)]
pub enum WriteFault {
    /// Values of this kind are not written.
    NotWritable,
    /// The text is no value of this kind.
    BadText,
}
