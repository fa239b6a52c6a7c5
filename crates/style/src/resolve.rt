// util/resolve.rs: what a length comes to. One match on the tag, `resolve`, decides which fields take it and what it comes to there; the tags
// that only sizes take are an inner match of it, `in_size`.
ghost use Rattle.std.specs.Prelude.{◌≡◌};
ghost use Rattle.style.specs.Resolve.{auto_in, in_size, without_keyword, from_size, resolved, is_allowed, takes, value_of, maybe_resolved, resolved_rect, resolved_size};

use crate::compact_length::CompactLength;
use geometry::{Rect, Size};

// The fields that hold lengths, by the tags that they take.
#[derive(Clone, Copy, PartialEq, Eq)]
pub enum Field {
    InsetOrMargin,
    PaddingOrBorder,
    Size,
    MinOrMax,
}

// A sizing keyword. A limit of fit-content is a number of pixels.
#[derive(Clone, Copy, PartialEq)]
pub enum SizingKeyword {
    MinContent,
    MaxContent,
    FitContent,
    FitContentLimit(f32),
    Stretch,
}

// What a length comes to.
// One enum of four cases: as a `Result<Option<..>, ..>` of a number or a keyword, each match of it would go three deep.
#[derive(Clone, Copy, PartialEq)]
pub enum Resolved {
    NotAllowed,
    Absent,
    Length(f32),
    Keyword(SizingKeyword),
}

impl Resolved {
    // Without a sizing keyword, which has no value in min and max.
    fn without_keyword(self) -> Resolved
        ensures { result ≡ without_keyword self }
    {
        match self {
            Resolved::Keyword(_) => Resolved::Absent,
            other => other,
        }
    }

    // Whether the field takes the tag.
    fn is_allowed(self) -> bool
        ensures { result ≡ is_allowed self }
    {
        !matches!(self, Resolved::NotAllowed)
    }

    // The number of pixels, if it comes to one.
    // A method: `Option::from` wouldn't say that a keyword is dropped.
    pub fn value(self) -> Option<f32>
        ensures { result ≡ value_of self }
    {
        match self {
            Resolved::Length(x) => Some(x),
            Resolved::NotAllowed | Resolved::Absent | Resolved::Keyword(_) => None,
        }
    }
}

impl Field {
    // Auto: no value; padding and border don't take it.
    fn auto(self) -> Resolved
        ensures { result ≡ auto_in self }
    {
        match self {
            Field::PaddingOrBorder => Resolved::NotAllowed,
            Field::InsetOrMargin | Field::Size | Field::MinOrMax => Resolved::Absent,
        }
    }

    // A tag that only sizes take: what it comes to here, from what it comes to in the size.
    fn from_size(self, size: Resolved) -> Resolved
        ensures { result ≡ from_size self size }
    {
        match self {
            Field::InsetOrMargin | Field::PaddingOrBorder => Resolved::NotAllowed,
            Field::Size => size,
            Field::MinOrMax => size.without_keyword(),
        }
    }
}

// The tags that only sizes take, in the size: content is auto, the others are sizing keywords.
// The match is on the tag's number and by the field as an argument, here and below: document 01 has that form ("match on the tag number").
fn in_size(length: CompactLength, basis: f32) -> Resolved
    ensures { result ≡ in_size length.tag length.value basis }
{
    match length.tag {
        11 => Resolved::Keyword(SizingKeyword::MinContent),
        15 => Resolved::Keyword(SizingKeyword::FitContentLimit(basis * length.value)),
        27 => Resolved::Keyword(SizingKeyword::MaxContent),
        35 => Resolved::Absent,
        43 => Resolved::Keyword(SizingKeyword::FitContentLimit(length.value)),
        59 => Resolved::Keyword(SizingKeyword::FitContent),
        75 => Resolved::Keyword(SizingKeyword::Stretch),
        _ => Resolved::NotAllowed,
    }
}

// What a length comes to in a field, percentages and sums being taken of the basis. 129 is a sum of a percentage and a length, in every field.
// So small, this match is put by the compiler into each caller, which keeps only the part of the answer that it wants (bench/README.md).
pub fn resolve(field: Field, length: CompactLength, basis: f32) -> Resolved
    ensures { result ≡ resolved field length basis }
{
    match length.tag {
        1 => Resolved::Length(length.value),
        3 => field.auto(),
        5 => Resolved::Length(basis * length.value),
        129 => Resolved::Length(basis * length.value + length.second),
        _ => field.from_size(in_size(length, basis)),
    }
}

impl Field {
    // Whether the field takes a tag, that is whether `resolve` allows it, whatever the values and the basis.
    // The tag is a number, as in `CompactLength`.
    pub fn takes(self, tag: u32) -> bool
        ensures { result ≡ takes self tag }
    {
        let length = CompactLength {
            tag,
            value: 0.0,
            second: 0.0,
        };
        resolve(self, length, 0.0).is_allowed()
    }
}

// The number of pixels that a length comes to, if any.
pub fn maybe_resolve(field: Field, length: CompactLength, basis: f32) -> Option<f32>
    ensures { result ≡ maybe_resolved field length basis }
{
    resolve(field, length, basis).value()
}

// Four sides: left and right against the width, top and bottom against the height.
pub fn maybe_resolve_rect(
    field: Field,
    sides: Rect<CompactLength>,
    basis: Size<f32>,
) -> Rect<Option<f32>>
    ensures { result ≡ resolved_rect field sides basis.width basis.height }
{
    sides.zip_size(basis, |length, basis| maybe_resolve(field, length, basis))
}

// Width and height, each against its own basis.
pub fn maybe_resolve_size(
    field: Field,
    size: Size<CompactLength>,
    basis: Size<f32>,
) -> Size<Option<f32>>
    ensures { result ≡ resolved_size field size basis }
{
    size.zip_map(basis, |length, basis| maybe_resolve(field, length, basis))
}
