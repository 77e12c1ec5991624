// What a command comes to, and its status.
ghost use Rattle.std.specs.Prelude.{◌≡◌};
ghost use Rattle.commands.specs.Answers.{number_of, status_of};

use cc_base::Name;
use i386_machine::Cause;

/// How the program ends.
#[derive(Clone, Copy, Debug, PartialEq, Eq)]
pub enum Status {
    /// The command was done; for run, exec and mean the program has ended.
    Done,
    /// No command fits the words.
    Words,
    /// There was not enough memory.
    Memory,
    /// A file that the command reads is not there.
    Missing,
    /// A read failed.
    ReadFault,
    /// A write failed.
    WriteFault,
    /// A text is not a unit's text.
    Syntax,
    /// A unit breaks a rule of the types.
    Typing,
    /// A file or a text passes a limit.
    Limit,
    /// A file is no object.
    Object,
    /// A name is defined twice.
    Doubled,
    /// A name is not defined.
    Unresolved,
    /// An object has another size than a unit states.
    Sized,
    /// The image passes the last address.
    Range,
    /// A file is no image, or the image cannot be loaded.
    Image,
    /// The program still runs after its steps.
    Spent,
    /// The program came to an instruction that has no step.
    Stuck,
    /// The source goes wrong.
    Wrong,
    /// The source needs more than the stack.
    Deep,
}

impl Status {
    /// The number that the program ends with.
    pub fn number(self) -> u8
        ensures { result ≡ number_of self }
    {
        match self {
            Status::Done => 0,
            Status::Words => 2,
            Status::Memory => 3,
            Status::Missing => 4,
            Status::ReadFault => 5,
            Status::WriteFault => 6,
            Status::Syntax => 7,
            Status::Typing => 8,
            Status::Limit => 9,
            Status::Object => 10,
            Status::Doubled => 11,
            Status::Unresolved => 12,
            Status::Sized => 13,
            Status::Range => 14,
            Status::Image => 15,
            Status::Spent => 16,
            Status::Stuck => 17,
            Status::Wrong => 18,
            Status::Deep => 19,
        }
    }
}

/// What is wrong with a text that is no unit's text.
#[derive(Clone, Copy, Debug, PartialEq, Eq)]
pub enum SyntaxKind {
    /// No token begins at a place, or a comment that has no end.
    Char,
    /// A number, or a character or string literal is not as it must be.
    Literal,
    /// With a token the text begins no unit, or it ends too early.
    Token,
}

/// Which rule of the types a unit breaks.
#[derive(Clone, Copy, Debug, PartialEq, Eq)]
pub enum TypingKind {
    /// A name or a member is not declared before, or a size that is needed is not known.
    Unknown,
    /// A name is declared twice.
    Twice,
    /// A type does not fit.
    Kind,
    /// A call has another number of arguments than the function has parameters.
    Count,
    /// What is assigned to is no place, or `&` stands before what has no address.
    NotPlace,
    /// A name of the runtime is declared.
    Reserved,
    /// `main` is not `int main(void)`.
    MainShape,
    /// An initialiser is no constant or does not fit.
    Initialiser,
}

/// Which limit a unit passes.
#[derive(Clone, Copy, Debug, PartialEq, Eq)]
pub enum UnitLimit {
    /// Of the size of an object or of objects together.
    Size,
    /// Of the number of a function's parameters.
    Params,
    /// Of the number of the unit's nodes.
    Nodes,
}

/// All that a command has to tell: its status, and the names and numbers of its line.
#[derive(Drop)]
pub enum Answer {
    Words,
    Memory,
    /// The file of this name is missing.
    Missing(Name),
    ReadFault,
    WriteFault,
    /// The file of this name is longer than a file may be.
    LimitFile(Name),
    /// The text of this name is longer than a text may be.
    LimitText(Name),
    /// In the text of this file too many brackets are open at this place, counted in bytes from 0, or too many tokens stand in a row.
    LimitDeep {
        file: Name,
        at: u32,
    },
    /// The text of this file is no unit's text from this place on, counted in bytes from 0.
    Syntax {
        file: Name,
        kind: SyntaxKind,
        at: u32,
    },
    /// The unit in this file breaks a rule of the types at this place, counted in bytes from 0.
    Typing {
        file: Name,
        kind: TypingKind,
        at: u32,
    },
    /// The unit in this file passes a limit at this place, counted in bytes from 0.
    LimitUnit {
        file: Name,
        limit: UnitLimit,
        at: u32,
    },
    /// The text of this name is not of the form that is compiled.
    LimitForm(Name),
    /// The file of this name is no object.
    ObjectForm(Name),
    /// The object or unit with this file defines this name, which an earlier one defines too.
    Doubled {
        name: Name,
        file: Name,
    },
    /// The object or unit with this file uses this name, which none defines.
    Unresolved {
        name: Name,
        file: Name,
    },
    /// The object or unit with this file states another size of this name than it is defined with, both in bytes.
    Sized {
        name: Name,
        file: Name,
        stated: u32,
        defined: u32,
    },
    /// The image would end at this address.
    Range(u64),
    /// The file of this name is no image.
    ImageForm(Name),
    /// A segment of the image of this name, counted from 0, leaves the addresses of images.
    ImageSegment {
        file: Name,
        index: u32,
    },
    /// The entry of the image of this name lies in no executable segment.
    ImageEntry(Name),
    /// An object of so many bytes was stored.
    ObjectStored(u64),
    /// An image of so many bytes was stored.
    ImageStored(u64),
    /// A text was shown.
    Shown,
    /// The program has ended with this status.
    Ended(u8),
    Spent,
    /// There is no step at this address.
    Stuck {
        eip: u32,
        cause: Cause,
    },
    /// The source is wrong after so many turns, and not before.
    Wrong(u32),
    /// The source needs more than the stack after so many turns, and not before.
    Deep(u32),
}

impl Answer {
    /// The status that stands for an answer.
    pub fn status(&self) -> Status
        ensures { result ≡ status_of self.now }
    {
        match self {
            Answer::Words => Status::Words,
            Answer::Memory => Status::Memory,
            Answer::Missing(_) => Status::Missing,
            Answer::ReadFault => Status::ReadFault,
            Answer::WriteFault => Status::WriteFault,
            Answer::LimitFile(_) => Status::Limit,
            Answer::LimitText(_) => Status::Limit,
            Answer::LimitDeep { .. } => Status::Limit,
            Answer::Syntax { .. } => Status::Syntax,
            Answer::Typing { .. } => Status::Typing,
            Answer::LimitUnit { .. } => Status::Limit,
            Answer::LimitForm(_) => Status::Limit,
            Answer::ObjectForm(_) => Status::Object,
            Answer::Doubled { .. } => Status::Doubled,
            Answer::Unresolved { .. } => Status::Unresolved,
            Answer::Sized { .. } => Status::Sized,
            Answer::Range(_) => Status::Range,
            Answer::ImageForm(_) => Status::Image,
            Answer::ImageSegment { .. } => Status::Image,
            Answer::ImageEntry(_) => Status::Image,
            Answer::ObjectStored(_) => Status::Done,
            Answer::ImageStored(_) => Status::Done,
            Answer::Shown => Status::Done,
            Answer::Ended(_) => Status::Done,
            Answer::Spent => Status::Spent,
            Answer::Stuck { .. } => Status::Stuck,
            Answer::Wrong(_) => Status::Wrong,
            Answer::Deep(_) => Status::Deep,
        }
    }
}
