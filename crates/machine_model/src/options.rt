//! How a client wants to be served.

/// How a client wants to be served: whether its lines and columns count from 1, and whether it is shown the types of
/// variables (DAP specification, Initialize request, its arguments).
#[derive(Clone, Copy, PartialEq, Eq)]
pub struct ClientOptions {
    pub lines_from_one: bool,
    pub columns_from_one: bool,
    pub shows_types: bool,
}
