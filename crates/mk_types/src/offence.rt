//! Offences against the typing.

ghost use Rattle.std.specs.Prelude.{◌≡◌, List, []};
ghost use Rattle.mk_types.specs.First.{IsFirst, number, is_place_before, is_before, refusal};

use mk_ast::SourceRefusal;
use mk_base::Place;

/// What an offence is.
#[derive(Clone, Copy, Debug, PartialEq, Eq)]
pub enum OffenceKind {
    /// 32: a name that is not declared.
    Unknown,
    /// 33: a name that is declared twice.
    Twice,
    /// 34: a name or an element of another kind than its place wants.
    Kind,
    /// 35: an assignment to an input.
    AssignInput,
    /// 36: a map that the field does not have.
    MapForm,
}

impl OffenceKind {
    /// The number of the offence.
    pub fn number(self) -> u8
        ensures { result ≡ number self }
    {
        match self {
            OffenceKind::Unknown => 32,
            OffenceKind::Twice => 33,
            OffenceKind::Kind => 34,
            OffenceKind::AssignInput => 35,
            OffenceKind::MapForm => 36,
        }
    }
}

/// An offence, at the place of a name or an element.
#[derive(Clone, Copy, Debug, PartialEq, Eq)]
pub struct Offence {
    pub at: Place,
    pub kind: OffenceKind,
}

impl Offence {
    /// Whether it stands before another: at an earlier place, or at the same one with a lower number.
    pub fn is_before(self, other: Offence) -> bool
        ensures { result ≡ is_before self other }
    {
        if is_place_before(self.at, other.at) {
            return true;
        }
        self.at.line == other.at.line
            && self.at.column == other.at.column
            && self.kind.number() < other.kind.number()
    }

    /// The refusal that tells it.
    pub fn refusal(self) -> SourceRefusal
        ensures { result ≡ refusal self }
    {
        match self.kind {
            OffenceKind::Unknown => SourceRefusal::Unknown(self.at),
            OffenceKind::Twice => SourceRefusal::Twice(self.at),
            OffenceKind::Kind => SourceRefusal::Kind(self.at),
            OffenceKind::AssignInput => SourceRefusal::AssignInput(self.at),
            OffenceKind::MapForm => SourceRefusal::MapForm(self.at),
        }
    }
}

/// Whether a place is before another: on an earlier line, or on the same one in an earlier column.
fn is_place_before(a: Place, b: Place) -> bool
    ensures { result ≡ is_place_before a b }
{
    a.line < b.line || (a.line == b.line && a.column < b.column)
}

/// Of offences at most one is the first, and where there is none, none is the first. It does nothing.
pub fn first_law()
    ensures one { (xs : List Offence) (x y : Offence) → IsFirst xs x → IsFirst xs y → x ≡ y }
    ensures none { (x : Offence) → IsFirst [] x → ⊥ }
{}
