use line_elements::Version;
use target_scripts::Building;

/// What was read so far: the number of the line that comes next, the version, once the head was read, and the script so
/// far, once the sizes of ids were.
#[derive(Drop)]
pub(crate) struct Reading {
    pub(crate) line: u32,
    pub(crate) version: Option<Version>,
    pub(crate) building: Option<Building>,
}
