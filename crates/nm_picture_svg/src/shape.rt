//! What a drawing is made of: groups of shapes with their places and their tones.
//!
//! A tone says what a shape means, and the style sheet alone knows its colours.

use crate::items::Items;

/// A place: pixels from the left and from the top.
#[derive(Clone, Copy)]
pub struct Point {
    pub x: u32,
    pub y: u32,
}

/// What a shape means.
#[derive(Clone, Copy)]
pub enum Tone {
    /// Words and lines of no meaning of their own.
    Plain,
    /// Words and lines that stand back.
    Soft,
    /// The title of a drawing.
    Title,
    /// The head of a lane or of a part.
    Heading,
    /// The line of a lane.
    Lane,
    /// A line that sets parts of a drawing apart.
    Rule,
    /// What is asked of a device.
    Ask,
    /// What a device answers.
    Answer,
    /// What was refused, undone or differs.
    Refused,
    /// An entry of the journal, or another box with words.
    Entry,
    /// The entry of a decision.
    Decided,
    /// A box of what went wrong.
    Alarm,
    /// Words on an `Alarm`.
    OnAlarm,
    /// A pending commit.
    Pending,
    /// Running changed.
    Changed,
    /// What the manager holds.
    Manager,
    /// What an operator holds; operators beyond five share them in turn.
    FirstOperator,
    SecondOperator,
    ThirdOperator,
    FourthOperator,
    FifthOperator,
}

/// On which side of its place a text stands: behind it, around it, or before it.
#[derive(Clone, Copy)]
pub enum Anchor {
    Start,
    Middle,
    End,
}

/// How a line ends.
#[derive(Clone, Copy)]
pub enum Tip {
    Bare,
    Arrow,
}

/// How a line is drawn.
#[derive(Clone, Copy)]
pub enum Stroke {
    Whole,
    Dashed,
}

/// How a rectangle is drawn.
#[derive(Clone, Copy)]
pub enum Fill {
    Solid,
    /// Its border alone.
    Hollow,
}

/// A fault, which has a sign of its own: about 18 pixels wide and high.
#[derive(Clone, Copy)]
pub enum Fault {
    /// A device restarts: an arrow that goes round.
    Restart,
    /// A session is lost: a circle that is struck through.
    Loss,
    /// A link is broken: a line in two parts.
    Break,
    /// A timer ran out: a clock.
    Timer,
    /// The manager crashes: a bolt.
    Crash,
    /// The manager forgets what it had in memory: an empty page.
    Forgetting,
}

/// A shape.
#[derive(Drop)]
pub enum Shape {
    Line {
        from: Point,
        to: Point,
        tip: Tip,
        stroke: Stroke,
        tone: Tone,
    },
    /// By its upper left corner.
    Rectangle {
        corner: Point,
        width: u32,
        height: u32,
        fill: Fill,
        tone: Tone,
    },
    /// 10 pixels wide.
    Dot {
        center: Point,
        tone: Tone,
    },
    /// What was lost: 10 pixels wide.
    Cross {
        center: Point,
        tone: Tone,
    },
    Sign {
        center: Point,
        fault: Fault,
    },
    /// The place is on the line that letters stand on. The text is UTF-8.
    Text {
        place: Point,
        anchor: Anchor,
        tone: Tone,
        text: Items<u8>,
    },
}

/// Shapes that belong together, with the title that is shown when the mouse rests on one of them. The title is UTF-8.
#[derive(Drop)]
pub struct Group {
    pub title: Option<Items<u8>>,
    pub shapes: Items<Shape>,
}

/// A drawing, whose groups lie over one another in their order. Its label, in UTF-8, is for those who can't see it.
#[derive(Drop)]
pub struct Drawing {
    pub width: u32,
    pub height: u32,
    pub label: Items<u8>,
    pub groups: Items<Group>,
}
