//! What stands around the rows of a table: the commands that each row is given to, what stands before and behind its part, and around what is wanted.

/// What the part of a row is.
#[derive(Clone, Copy)]
pub enum Part {
    /// What the commands read.
    Input,
    /// The bytes of the journal; the commands read nothing.
    Journal,
    /// The words of the command; it reads what stands around the part.
    Words,
}

/// The numbers of the calls that fail, from 1; 0 for none.
#[derive(Clone, Copy)]
pub struct Failing {
    pub read: u64,
    pub write: u64,
    pub journal: u64,
}

/// What the lines `: WORD TEXT` above a row say.
#[derive(Clone, Copy)]
pub struct Frame<'a> {
    /// The commands, parted by ` then `.
    pub commands: &'a str,
    /// What stands before the part of a row, and behind it.
    pub open: &'a str,
    pub close: &'a str,
    /// What stands before and behind each of the items that are parted by ` ; `, if the part is a list of them.
    pub each: &'a str,
    pub end: &'a str,
    /// What stands before what a row wants, and behind it.
    pub head: &'a str,
    pub tail: &'a str,
    /// Whether what is wanted are items too, each a line with its number.
    pub is_numbered: bool,
    /// What the part is.
    pub part: Part,
    /// Which calls of the input, the output and the journal fail.
    pub failing: Failing,
    /// How many lines of an answer are compared; 0 for all.
    pub lines: usize,
}

/// The frame of no row.
pub const NONE: Frame<'static> = Frame {
    commands: "",
    open: "",
    close: "",
    each: "",
    end: "",
    head: "",
    tail: "",
    is_numbered: false,
    part: Part::Input,
    failing: Failing {
        read: 0,
        write: 0,
        journal: 0,
    },
    lines: 0,
};

/// Takes a line `: WORD TEXT`, and answers whether the word is known. The word `commands` begins a new frame.
pub fn set<'a>(frame: &mut Frame<'a>, line: &'a str) -> bool {
    let (word, text) = line.split_once(' ').unwrap_or((line, ""));
    match word {
        "commands" => {
            *frame = NONE;
            frame.commands = text;
        }
        "open" => frame.open = text,
        "close" => frame.close = text,
        "each" => frame.each = text,
        "end" => frame.end = text,
        "head" => frame.head = text,
        _ => return set_wanted(frame, word, text),
    }
    true
}

fn set_wanted<'a>(frame: &mut Frame<'a>, word: &str, text: &'a str) -> bool {
    match word {
        "tail" => frame.tail = text,
        "numbered" => frame.is_numbered = true,
        "journal" => frame.part = Part::Journal,
        "words" => frame.part = Part::Words,
        "lines" => frame.lines = text.parse::<usize>().unwrap_or(0),
        _ => return set_failing(&mut frame.failing, word, number_of(text)),
    }
    true
}

fn set_failing(failing: &mut Failing, word: &str, number: u64) -> bool {
    match word {
        "failing-read" => failing.read = number,
        "failing-write" => failing.write = number,
        "failing-journal" => failing.journal = number,
        _ => return false,
    }
    true
}

fn number_of(text: &str) -> u64 {
    text.parse::<u64>().unwrap_or(0)
}
