//! The kinds of faults.

ghost use Rattle.std.specs.Prelude.{◌≡◌};
ghost use Rattle.mm_defs.specs.Names.{kind_name};
ghost use Rattle.mm_defs.specs.Faults.{is_limit};

/// Why a line is bad. Where several kinds apply to a line, the first of this list is told.
#[derive(Clone, Copy, Debug, PartialEq, Eq)]
pub enum Kind {
    /// Line 1: its first word is not `%%MatrixMarket`, or it has no words, or there are no lines.
    NoBanner,
    /// Line 1: it does not have five words.
    HeaderWords,
    /// Line 1: the object is not `matrix`.
    Object,
    /// Line 1: the format is neither `array` nor `coordinate`.
    Format,
    /// Line 1: the field is none of `real`, `complex`, `integer`, `pattern`.
    Field,
    /// Line 1: the symmetry is none of `general`, `symmetric`, `skew-symmetric`, `hermitian`.
    Symmetry,
    /// Line 1: the format is `array`, and the field is not `integer`.
    ArrayField,
    /// Line 1: no file of this field may have this symmetry.
    Combination,
    /// Size line: it does not have three words, or two in an array file.
    SizeWords,
    /// Size line: one of its words is not a number.
    SizeNumber,
    /// Size line: more than 134,217,728 rows.
    Rows,
    /// Size line: more than 134,217,728 columns.
    Columns,
    /// Size line: more than 134,217,728 entry lines, or so many values of an array file.
    Entries,
    /// Size line: as many rows as columns are needed, since the symmetry is not general.
    NotSquare,
    /// Entry line: it does not have two words and the field's value words. Value line of an array
    /// file: it does not have one word.
    EntryWords,
    /// Entry line: the first word is not a number. Edit line: the second word is none.
    RowNumber,
    /// Entry line: the second word is not a number. Edit line: the third word is none.
    ColumnNumber,
    /// Entry line or edit line: the row is 0 or past the last row.
    RowRange,
    /// Entry line or edit line: the column is 0 or past the last column.
    ColumnRange,
    /// Entry line of an integer file: the third word is not an integer. Value line: its word is
    /// none.
    ValueNumber,
    /// Entry line of an integer file, or value line: the magnitude is above
    /// 9,223,372,036,854,775,807.
    Value,
    /// Entry line: it stands above the diagonal, and the symmetry is not general.
    UpperEntry,
    /// Entry line: it stands on the diagonal of a skew-symmetric file.
    DiagonalEntry,
    /// A line that is not skipped follows the last entry line or value line.
    Trailing,
    /// The input ends without a size line.
    NoSize,
    /// The input ends with too few entry lines or value lines.
    MissingEntries,
    /// Edit line: there are 16,777,216 before it.
    Edits,
    /// Edit line: the first word is none of `set`, `clear`, `report`.
    EditWord,
    /// Edit line: it does not have three words, or one where the first is `report`.
    EditWords,
    /// Batch: the line before a file does not have the words `file` and a number.
    BatchHeader,
    /// Batch: there are 65,536 files before it.
    Files,
    /// Batch: a file of more than 1,073,741,824 bytes.
    FileBytes,
    /// Batch: the input ends before the file's last byte.
    ShortFile,
}

impl Kind {
    /// Its name, as it is printed.
    pub fn name(self) -> &'static str
        ensures { result.now ≡ kind_name self }
    {
        match self {
            Kind::NoBanner => "NoBanner",
            Kind::HeaderWords => "HeaderWords",
            Kind::Object => "Object",
            Kind::Format => "Format",
            Kind::Field => "Field",
            Kind::Symmetry => "Symmetry",
            Kind::ArrayField => "ArrayField",
            Kind::Combination => "Combination",
            Kind::SizeWords => "SizeWords",
            Kind::SizeNumber => "SizeNumber",
            Kind::Rows => "Rows",
            Kind::Columns => "Columns",
            Kind::Entries => "Entries",
            Kind::NotSquare => "NotSquare",
            Kind::EntryWords => "EntryWords",
            Kind::RowNumber => "RowNumber",
            Kind::ColumnNumber => "ColumnNumber",
            Kind::RowRange => "RowRange",
            Kind::ColumnRange => "ColumnRange",
            Kind::ValueNumber => "ValueNumber",
            Kind::Value => "Value",
            Kind::UpperEntry => "UpperEntry",
            Kind::DiagonalEntry => "DiagonalEntry",
            Kind::Trailing => "Trailing",
            Kind::NoSize => "NoSize",
            Kind::MissingEntries => "MissingEntries",
            Kind::Edits => "Edits",
            Kind::EditWord => "EditWord",
            Kind::EditWords => "EditWords",
            Kind::BatchHeader => "BatchHeader",
            Kind::Files => "Files",
            Kind::FileBytes => "FileBytes",
            Kind::ShortFile => "ShortFile",
        }
    }

    /// Whether it tells of a limit. The other kinds tell that the file is malformed.
    pub fn is_limit(self) -> bool
        ensures { result ≡ is_limit self }
    {
        match self {
            Kind::Rows | Kind::Columns | Kind::Entries | Kind::Value => true,
            Kind::Edits | Kind::Files | Kind::FileBytes => true,
            _ => false,
        }
    }
}
