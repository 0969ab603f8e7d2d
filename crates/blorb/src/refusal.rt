// Why a call is refused: a fault, and its place.
ghost use Rattle.std.specs.Prelude.{◌≡◌};

use std::marker::Model;

/// What is wrong. The number of each is the one that programs in C are given.
#[derive(Clone, Copy, PartialEq, Eq, Debug)]
pub enum Fault {
    /// The file is longer than 16 MiB.
    TooLong = 1,
    /// It has fewer than 12 bytes.
    TooShort = 2,
    /// It begins with no 'FORM'.
    NoForm = 3,
    /// Its form has no type 'IFRS'.
    NoIfrs = 4,
    /// The form's length is not the file's less 8.
    FormLength = 5,
    /// The file ends within a chunk's header.
    ChunkCut = 6,
    /// A padding byte is not zero.
    Padding = 7,
    /// The first chunk is no index, or there is none.
    NoIndex = 8,
    /// A second index.
    SecondIndex = 9,
    /// The index's length is not 4 + 12 * count.
    IndexLength = 10,
    /// More than 4,096 entries.
    TooMany = 11,
    /// An entry's usage is none of the four.
    UnknownUsage = 12,
    /// No chunk behind the index begins at an entry's start.
    Start = 13,
    /// The chunk's type does not suit the usage.
    Type = 14,
    /// An Exec with a number other than 0.
    ExecNumber = 15,
    /// An earlier entry has this usage and number.
    Repeated = 16,
    /// A second 'RelN' or 'Fspc'.
    SecondOptional = 17,
    /// The length of a 'RelN' or 'Fspc' is wrong.
    OptionalLength = 18,
    /// The frontispiece's picture is not in the index, or a 'Rect'.
    Frontispiece = 19,
    /// A length exceeds its buffer.
    Lengths = 20,
    /// The journal's last record is not well formed, or doesn't fit the file.
    Record = 21,
    /// No such entry, row, FORM or text.
    NotThere = 22,
    /// The chunk has another entry too.
    Shared = 23,
    /// The file's buffer is too small.
    FileRoom = 24,
    /// The journal is too small.
    JournalRoom = 25,
    /// The journal is empty.
    NothingToUndo = 26,
    /// The start is lower than that of the entry before.
    Order = 27,
    /// A chunk's length runs past the end.
    ChunkLength = 28,
    /// The file ends where a padding byte should be.
    NoPadding = 29,
    /// Data of type 'FORM' is no whole form.
    WholeForm = 30,
    /// A second 'Reso'.
    SecondReso = 31,
    /// The length of the 'Reso' is not 24 + 28 * rows.
    ResoLength = 32,
    /// A number of the 'Reso', or a side given, is not allowed.
    ResoNumber = 33,
    /// The slice is too small for the table.
    TableRoom = 34,
    /// The table is not this file's.
    TableStale = 35,
    /// A second 'RDes'.
    SecondRdes = 36,
    /// The entries do not fill the 'RDes'.
    RdesLength = 37,
    /// An earlier text has this usage and number.
    RdesRepeated = 38,
    /// A text is no UTF-8, or runs past its slice.
    RdesText = 39,
    /// The buffer is too small for the 'RDes', or that is longer than 16 MiB.
    RdesRoom = 40,
    /// A member is cut short or runs past what holds it.
    GroupSize = 41,
    /// A FORM or group is too deep.
    GroupDepth = 42,
    /// A chunk may not stand there.
    GroupMember = 43,
    /// A member's padding byte is missing or not zero.
    GroupPadding = 44,
    /// The slice is too small for the list of FORMs.
    FormsRoom = 45,
    /// The bytes are no 'AIFF'.
    NotAiff = 49,
    /// Not one 'COMM' chunk of 18 bytes.
    Common = 50,
    /// The rate is no whole number of 32 bits.
    Rate = 51,
    /// The profile is unknown.
    Profile = 52,
    /// From here on: the file that the edit would make has the fault whose number is less by 100.
    ResultTooLong = 101,
    ResultSecondIndex = 109,
    ResultTooMany = 111,
    ResultUsage = 112,
    ResultType = 114,
    ResultExecNumber = 115,
    ResultRepeated = 116,
    ResultFrontispiece = 119,
}

/// A refusal. Its place is mostly an offset in the file; contracts see it as its number and place.
#[derive(Clone, Copy, Debug)]
pub struct Refusal {
    pub fault: Fault,
    pub place: usize,
}

impl Model for Refusal {
    ghost use Rattle.std.specs.Prelude.{ℕ};

    ghost Value = { ℕ × ℕ };

    ghost use Rattle.blorb.specs.Faults.{view_of, inside_of, inside_of_view};

    ghost view = { view_of };

    ghost inverse = { inside_of };

    ghost inverse_ok = { λ r h. inside_of_view r };
}

impl Refusal {
    pub fn number(self) -> u64
        ensures { result ≡ self.0 }
    {
        self.fault as u64
    }
}
