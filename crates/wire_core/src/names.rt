use crate::text::Text;

/// The names that wires were asked to open: where the client is accepted, if it was asked for, and the target's address.
#[derive(Debug, Drop)]
pub struct Names {
    pub listen: Option<Text>,
    pub target: Text,
}
