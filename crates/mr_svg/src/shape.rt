//! What is drawn, and what it stands for.

/// A point, from the left and from above.
#[derive(Clone, Copy)]
pub struct Point {
    pub x: u64,
    pub y: u64,
}

/// A corner that is cut: where the way leaves its first part, the corner itself, and where the next part begins.
#[derive(Clone, Copy)]
pub struct Corner {
    pub before: Point,
    pub at: Point,
    pub behind: Point,
}

/// What is drawn.
#[derive(Clone, Copy)]
pub enum Shape {
    /// A rectangle, from its upper left corner.
    Band {
        at: Point,
        wide: u64,
        high: u64,
    },
    Line {
        from: Point,
        to: Point,
    },
    /// A way that goes straight to a corner, round that, and straight on by one more point.
    Bend {
        from: Point,
        corner: Corner,
        come: Point,
        to: Point,
    },
    /// A disc, by its centre.
    Dot {
        at: Point,
    },
    /// A square that stands on a corner, by its centre.
    Diamond {
        at: Point,
    },
    /// A square, by its centre.
    Square {
        at: Point,
    },
    /// Words that begin at a point.
    Words {
        at: Point,
    },
    /// Words that end at a point.
    WordsTo {
        at: Point,
    },
}

/// What a mark stands for.
#[derive(Clone, Copy)]
pub enum Sign {
    /// The background of a row.
    Row,
    /// A thread.
    Lane,
    /// A step.
    Step,
    /// A step that races.
    Racing,
    /// The step that ended the run without completing.
    Stop,
    /// An edge by which a step woke or started a thread.
    Wake,
    /// An edge by which a step depends on another one.
    Dependence,
    /// The same, where the order of Rust has no such edge.
    MachineOrder,
    /// A race.
    Race,
    /// The first race.
    FirstRace,
    /// A step that a witness leaves out.
    LeftOut,
    /// A title.
    Title,
    /// The name of a thread, or the number of a step.
    Name,
    /// A text.
    Text,
    /// A text beside another one.
    Note,
}
