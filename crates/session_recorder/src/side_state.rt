ghost use Rattle.std.specs.Prelude.{◌≡◌, ◌≤◌};
ghost use Rattle.session_recorder.specs.States.{opens as is_open_state, is_lost as is_lost_state, room_for};
ghost use Rattle.session_recorder.specs.States.{closed as closed_state, state_after};

use wire_core::{Happening, Side};

/// What a recorder takes a side for: open; closed, since its stream ended, its link failed, or it was not opened; or
/// lost, since there was no memory for what it gave or was sent.
#[derive(Clone, Copy, Debug, PartialEq, Eq)]
pub enum SideState {
    Open,
    Closed,
    Lost,
}

impl SideState {
    /// Whether the side is open.
    pub(crate) fn is_open(self) -> bool
        ensures { result ≡ is_open_state self }
    {
        matches!(self, SideState::Open)
    }

    /// Whether the side was lost.
    pub(crate) fn is_lost(self) -> bool
        ensures { result ≡ is_lost_state self }
    {
        matches!(self, SideState::Lost)
    }

    /// How many entries have to be added for the side where memory is refused: one, its failure, unless it was lost.
    pub(crate) fn room(self) -> usize
        ensures room { result ≡ room_for self }
        ensures most { result ≤ 1 }
    {
        match self {
            SideState::Open => 1,
            SideState::Closed => 1,
            SideState::Lost => 0,
        }
    }

    /// What the side is taken for once it has ended, failed or not opened.
    pub(crate) fn closed(self) -> SideState
        ensures value { result ≡ closed_state self }
        ensures room { room_for result ≡ room_for self }
    {
        match self {
            SideState::Open => SideState::Closed,
            SideState::Closed => SideState::Closed,
            SideState::Lost => SideState::Lost,
        }
    }

    /// What this side is taken for behind a happening.
    pub(crate) fn after(self, side: Side, happening: Happening) -> SideState
        ensures value { result ≡ state_after side happening self }
        ensures room { room_for result ≡ room_for self }
    {
        match (side, happening) {
            (Side::Client, Happening::Shut(Side::Client)) => self.closed(),
            (Side::Client, Happening::Failed(Side::Client)) => self.closed(),
            (Side::Target, Happening::Shut(Side::Target)) => self.closed(),
            (Side::Target, Happening::Failed(Side::Target)) => self.closed(),
            _ => self,
        }
    }
}
