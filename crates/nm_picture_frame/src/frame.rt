//! The lanes, from left to right: the operators', the manager's, the devices'. Time goes down, line by line.

ghost use Rattle.std.specs.Prelude.{◌≡◌, max};
ghost use Rattle.nm_picture_frame.specs.Frame as spec;

use nm_base::DeviceNo;

/// The height of a line, in pixels: words of 12 pixels and an arrow below them.
pub const LINE_HEIGHT: u32 = 24;

/// From an operator's lane to the next one, in pixels: a word has room.
pub const OPERATOR_STEP: u32 = 60;

/// From the manager's lane to that of device 1, in pixels: what is asked of a device and what it answers has room.
pub const FIRST_DEVICE: u32 = 250;

/// From a device's lane to the next one, in pixels: with two operators six devices fit 1,200 pixels.
pub const DEVICE_STEP: u32 = 124;

/// The room to the left of the first operator's lane, in pixels.
pub const LEFT_MARGIN: u32 = 48;

/// The manager's lane, where there is no operator, in pixels: half of a box of its journal, and a margin.
pub const MANAGER_LEFT: u32 = 96;

/// The room to the right of the last lane, in pixels: what is told at a lane stands there.
pub const RIGHT_MARGIN: u32 = 114;

/// The least width of a picture, in pixels: the foot's words and the legend have room.
pub const LEAST_WIDTH: u32 = 760;

/// How many lanes there are, and where they begin.
#[derive(Clone, Copy)]
pub struct Frame {
    /// How many operators have a lane.
    pub operators: u32,
    /// How many devices have a lane.
    pub devices: u32,
    /// Where the lanes begin, in pixels from the top.
    pub top: u32,
    /// The line from which on a run is brought to rest. It and those below stand one line lower.
    pub rest: Option<u32>,
}

/// So many pixels to the right, or below. It stops at the largest number of 32 bits.
pub fn right_of(place: u32, by: u32) -> u32
    ensures { result ≡ spec.right_of place by }
{
    place.saturating_add(by)
}

/// So many pixels to the left, or above. It stops at 0.
pub fn left_of(place: u32, by: u32) -> u32
    ensures { result ≡ spec.left_of place by }
{
    place.saturating_sub(by)
}

// So many steps.
fn steps(step: u32, count: u32) -> u32
    ensures { result ≡ spec.steps step count }
{
    step.saturating_mul(count)
}

fn larger(one: u32, other: u32) -> u32
    ensures { result ≡ max one other }
{
    if one < other { other } else { one }
}

// How many lines stand before a line, with the one of the words that tell where a run is brought to rest.
fn lines_before(rest: Option<u32>, line: u32) -> u32
    ensures { result ≡ spec.lines_before rest line }
{
    match rest {
        Some(rest) => {
            if rest <= line {
                return right_of(line, 1);
            }
            line
        }
        None => line,
    }
}

impl Frame {
    /// The lane of an operator, by its number from 1.
    pub fn operator_x(&self, operator: u32) -> u32
        ensures { result ≡ spec.operator_x operator }
    {
        right_of(LEFT_MARGIN, steps(OPERATOR_STEP, left_of(operator, 1)))
    }

    /// The manager's lane.
    pub fn manager_x(&self) -> u32
        ensures { result ≡ spec.manager_x self.now }
    {
        right_of(MANAGER_LEFT, steps(OPERATOR_STEP, self.operators))
    }

    /// The lane of the device of a number, from 1.
    pub fn numbered_x(&self, device: u32) -> u32
        ensures { result ≡ spec.device_x self.now device }
    {
        let first = right_of(self.manager_x(), FIRST_DEVICE);
        right_of(first, steps(DEVICE_STEP, left_of(device, 1)))
    }

    /// The lane of a device.
    pub fn device_x(&self, device: DeviceNo) -> u32
        ensures { result ≡ spec.device_x self.now device }
    {
        self.numbered_x(u32::from(device.get()))
    }

    /// The middle of a line, by its number from 0.
    #[tactic(auto, unfolding(crate::specs::Frame::line_y))]
    pub fn line_y(&self, line: u32) -> u32
        ensures { result ≡ spec.line_y self.now line }
    {
        let above = steps(LINE_HEIGHT, lines_before(self.rest, line));
        right_of(right_of(self.top, above), LINE_HEIGHT / 2)
    }

    /// The middle of the words that tell where a run is brought to rest.
    pub fn rest_y(&self) -> Option<u32>
        ensures { result ≡ spec.rest_y self.now }
    {
        match self.rest {
            Some(rest) => Some(left_of(self.line_y(rest), LINE_HEIGHT)),
            None => None,
        }
    }

    /// Where the lanes of a picture of so many lines end.
    pub fn bottom(&self, lines: u32) -> u32
        ensures { result ≡ spec.bottom self.now lines }
    {
        right_of(self.line_y(lines), LINE_HEIGHT / 2)
    }

    /// The width of the picture.
    pub fn width(&self) -> u32
        ensures { result ≡ spec.width self.now }
    {
        let last = self.numbered_x(self.devices);
        larger(LEAST_WIDTH, right_of(last, RIGHT_MARGIN))
    }
}
