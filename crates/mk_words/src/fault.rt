ghost use Rattle.std.specs.Prelude.{◌≡◌, ◌≤◌, ◌++◌, ◌∷◌, [], length, decimal, codes};
ghost use Rattle.mk_lines.specs.Words.{operand_word};
ghost use Rattle.mk_words.specs.Lines.{source_line, large_line, input_line, element_head, check_line};

use arrayvec::ArrayString;
use itoa::Buffer;
use mk_ast::Limit;
use mk_base::{Place, Which};
use mk_ssa::Operand;

/// Why a source is refused, with the place where.
#[derive(Clone, Copy, Debug, PartialEq, Eq)]
pub enum SourceFault {
    /// No program goes on with what stands there.
    Syntax { at: Place },
    /// The name there is not declared.
    Unknown { at: Place },
    /// The name there is declared twice.
    Twice { at: Place },
    /// What stands there is of another kind than its place wants.
    Kind { at: Place },
    /// The target there is an input.
    AssignInput { at: Place },
    /// The map there is none that the field has.
    MapForm { at: Place },
    /// The index of the array whose name stands there goes past the array or past 65,535.
    Index { at: Place },
    /// This limit is exceeded.
    Large { limit: Limit },
}

/// Why the inputs of a program are refused.
#[derive(Clone, Copy, Debug, PartialEq, Eq)]
pub enum InputFault {
    /// So many inputs were given, and so many are wanted.
    Length { given: u32, wanted: u32 },
    /// The input of this number, from 0, is no element of the field.
    Element { which: Which, index: u32 },
    /// The whole tape has so many elements, and at least so many are wanted.
    TapeShort { given: u32, wanted: u32 },
    /// There are more probes than this number, the order; or the probe of this number, from 0, is no
    /// position of the trace.
    Probe { index: u32 },
}

/// Why a code with its certificate is refused.
#[derive(Clone, Copy, Debug, PartialEq, Eq)]
pub enum CheckFault {
    /// This instruction is not that of its block's template.
    Tile { instr: u32 },
    /// An operand of this block is not there, or not of its kind.
    Operand { block: u32 },
    /// This output is not the claimed value.
    Output { index: u32 },
    /// This value reaches both places of this product.
    Doubled { value: Operand, block: u32 },
}

/// A fault line. It takes no memory, so that every refusal can be told.
pub type FaultLine = ArrayString<64>;

impl SourceFault {
    /// Its line, with the line feed.
    pub fn line(self) -> FaultLine
        ensures { result.bytes ≡ source_line self }
    {
        match self {
            SourceFault::Syntax { at } => placed("31 syntax ", at),
            SourceFault::Unknown { at } => placed("32 unknown ", at),
            SourceFault::Twice { at } => placed("33 twice ", at),
            SourceFault::Kind { at } => placed("34 kind ", at),
            SourceFault::AssignInput { at } => placed("35 input ", at),
            SourceFault::MapForm { at } => placed("36 map ", at),
            SourceFault::Index { at } => placed("37 index ", at),
            SourceFault::Large { limit } => fixed(large_line(limit)),
        }
    }
}

/// The line of a limit that is exceeded.
fn large_line(limit: Limit) -> &'static str
    ensures line { result.now ≡ large_line limit }
    ensures short { length result.now ≤ 64 }
{
    match limit {
        Limit::Elements => "38 large elements\n",
        Limit::Work => "38 large work\n",
        Limit::Operations => "38 large operations\n",
        Limit::Size => "38 large size\n",
    }
}

impl InputFault {
    /// Its line, with the line feed.
    pub fn line(self) -> FaultLine
        ensures { result.bytes ≡ input_line self }
    {
        match self {
            InputFault::Length { given, wanted } => paired("51 length ", given, " ", wanted),
            InputFault::Element { which, index } => numbered(element_head(which), index),
            InputFault::TapeShort { given, wanted } => paired("53 tape ", given, " ", wanted),
            InputFault::Probe { index } => numbered("54 probe ", index),
        }
    }
}

/// The head of the line of an input that is no element.
fn element_head(which: Which) -> &'static str
    ensures head { result.now ≡ element_head which }
    ensures short { length result.now ≤ 40 }
{
    match which {
        Which::Public => "52 element public ",
        Which::Secret => "52 element secret ",
        Which::Other => "52 element other ",
        Which::Tape => "52 element tape ",
    }
}

impl CheckFault {
    /// Its line, with the line feed.
    pub fn line(self) -> FaultLine
        ensures { result.bytes ≡ check_line self }
    {
        match self {
            CheckFault::Tile { instr } => numbered("11 tile ", instr),
            CheckFault::Operand { block } => numbered("12 operand ", block),
            CheckFault::Output { index } => numbered("14 output ", index),
            CheckFault::Doubled { value, block } => doubled(value, block),
        }
    }
}

/// The line of a value that reaches both places of a product.
fn doubled(value: Operand, block: u32) -> FaultLine
    ensures { result.bytes ≡ codes "13 doubled " ++ operand_word value ++ codes " b" ++ decimal block ++ 10 ∷ [] }
{
    match value {
        Operand::Secret(number) => paired("13 doubled s", number, " b", block),
        Operand::Public(number) => paired("13 doubled p", number, " b", block),
        Operand::Block(number) => paired("13 doubled b", number, " b", block),
    }
}

/// A line without a number.
pub fn fixed(text: &str) -> FaultLine
    requires { length text.now ≤ 64 }
    ensures { result.bytes ≡ text.now }
{
    let mut line = FaultLine::new();
    line.push_str(text);
    line
}

/// A line that ends in a number.
pub fn numbered(text: &str, number: u32) -> FaultLine
    requires { length text.now ≤ 40 }
    ensures { result.bytes ≡ text.now ++ decimal number ++ 10 ∷ [] }
{
    counted(text, u64::from(number))
}

/// A line that ends in a count.
pub fn counted(text: &str, count: u64) -> FaultLine
    requires { length text.now ≤ 40 }
    ensures { result.bytes ≡ text.now ++ decimal count ++ 10 ∷ [] }
{
    let mut digits = Buffer::new();
    let mut line = FaultLine::new();
    line.push_str(text);
    line.push_str(digits.format(count));
    line.push_str("\n");
    line
}

/// A line that ends in a place.
fn placed(text: &str, at: Place) -> FaultLine
    requires { length text.now ≤ 40 }
    ensures { result.bytes ≡ text.now ++ decimal at.line ++ codes ":" ++ decimal at.column ++ 10 ∷ [] }
{
    let mut lines = Buffer::new();
    let mut columns = Buffer::new();
    let mut line = FaultLine::new();
    line.push_str(text);
    line.push_str(lines.format(at.line));
    line.push_str(":");
    line.push_str(columns.format(at.column));
    line.push_str("\n");
    line
}

/// A line that ends in two numbers, with a text between them.
fn paired(text: &str, first: u32, between: &str, second: u32) -> FaultLine
    requires text { length text.now ≤ 20 }
    requires between { length between.now ≤ 10 }
    ensures { result.bytes ≡ text.now ++ decimal first ++ between.now ++ decimal second ++ 10 ∷ [] }
{
    let mut firsts = Buffer::new();
    let mut seconds = Buffer::new();
    let mut line = FaultLine::new();
    line.push_str(text);
    line.push_str(firsts.format(first));
    line.push_str(between);
    line.push_str(seconds.format(second));
    line.push_str("\n");
    line
}
