//! Laws of places. The functions do nothing: their contracts are the laws.

ghost use Rattle.std.specs.Prelude.{◌<◌, ◌≤◌, ◌+◌, ◌^◌, ℕ};
ghost use Rattle.nm_picture_frame.specs.declared.frame.Frame.{Frame};
ghost use Rattle.nm_picture_frame.specs.Frame.{bottom, device_x, line_y, manager_x, operator_x, width};

/// The lanes stand in their order, and apart: each operator's before the manager's, the manager's before those of the devices.
pub fn lanes_stand_apart()
    ensures operators { (one : ℕ) (other : ℕ) → 1 ≤ one → one < other → other < 2 ^ 16 → operator_x one + 60 ≤ operator_x other }
    ensures manager { (frame : Frame) (one : ℕ) → 1 ≤ one → one ≤ frame.operators → frame.operators < 2 ^ 16
        → operator_x one + 60 ≤ manager_x frame }
    ensures first { (frame : Frame) (device : ℕ) → frame.operators < 2 ^ 16 → device ≤ 32
        → manager_x frame + 250 ≤ device_x frame device }
    ensures devices { (frame : Frame) (one : ℕ) (other : ℕ) → frame.operators < 2 ^ 16 → 1 ≤ one → one < other → other ≤ 32
        → device_x frame one + 124 ≤ device_x frame other }
{}

/// Each line stands 24 pixels and more below the one before it, and above the bottom.
#[tactic(auto, unfolding(crate::specs::Frame::line_y))]
pub fn lines_stand_apart()
    ensures lines { (frame : Frame) (one : ℕ) (other : ℕ) → frame.top < 2 ^ 31 → one < other → other < 2 ^ 24
        → line_y frame one + 24 ≤ line_y frame other }
    ensures bottom { (frame : Frame) (line : ℕ) (lines : ℕ) → frame.top < 2 ^ 31 → line < lines → lines < 2 ^ 24
        → line_y frame line + 36 ≤ bottom frame lines }
{}

/// The lane of each device is on the picture, with what is told beside it.
pub fn lanes_are_on_the_picture()
    ensures { (frame : Frame) (device : ℕ) → frame.operators < 2 ^ 16 → device ≤ frame.devices → frame.devices ≤ 32
        → device_x frame device + 114 ≤ width frame }
{}
