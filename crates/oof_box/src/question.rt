// The dialogue of one box with its host: questions, replies, and what is kept between two calls.
#![tactic(auto, unfolding(crate::specs::Cut::taken))]

ghost use Rattle.std.specs.Prelude.{◌≡◌};
ghost use Rattle.oof_box.specs.Cut.{with_keyword, with_fill, taken};

use geometry::{Rect, Size};
use style::available_space::AvailableSpace;

// What is to be measured: a node, its known sizes and its available space.
#[derive(Clone, Copy)]
pub struct MeasureInput {
    pub node: u32,
    pub known: Size<Option<f32>>,
    pub space: Size<AvailableSpace>,
}

// What is to be laid out: a node, its final size and its available space.
// Two types, as known and final size are two words of document 01: the one field of a generic type would have neither name.
#[derive(Clone, Copy)]
pub struct LayoutInput {
    pub node: u32,
    pub size: Size<f32>,
    pub space: Size<AvailableSpace>,
}

#[derive(Clone, Copy)]
pub enum Question {
    MeasureBoth(MeasureInput),
    MeasureWidth(MeasureInput),
    MeasureHeight(MeasureInput),
    LayOut(LayoutInput),
}

// What the host says: sizes, or the scrollable overflow of a box that it laid out.
#[derive(Clone, Copy)]
pub enum Reply {
    Both(Size<f32>),
    Width(f32),
    Height(f32),
    LaidOut(Rect<f32>),
}

// Which question of a box is open: one for its size keywords, that of step 6, or lay out. It tells the two questions that
// measure both apart.
#[derive(Clone, Copy)]
pub enum Stage {
    KeywordBoth,
    KeywordWidth,
    KeywordHeight,
    Fill,
    LayOut,
}

// A question, and the stage at which it is asked.
#[derive(Clone, Copy)]
pub struct Asked {
    pub stage: Stage,
    pub question: Question,
}

// The reply to the question for size keywords.
// A type of its own beside `Reply`: so no reader of what is kept has a case for `LaidOut`.
#[derive(Clone, Copy)]
pub enum KeywordReply {
    Both(Size<f32>),
    Width(f32),
    Height(f32),
}

// The replies to a box's measure questions so far; `fill` is that to the question of step 6.
#[derive(Clone, Copy, Default)]
pub struct Replies {
    pub keyword: Option<KeywordReply>,
    pub fill: Option<Size<f32>>,
}

// What a reply of its question's kind comes to: kept; or the box is laid out.
#[derive(Clone, Copy)]
pub enum Taken {
    Kept(Replies),
    Laid(Rect<f32>),
}

impl Replies {
    // These two differ in the field that they write, which no argument can name.
    fn with_keyword(self, keyword: KeywordReply) -> Taken
        ensures { result ≡ with_keyword self keyword }
    {
        Taken::Kept(Replies {
            keyword: Some(keyword),
            ..self
        })
    }

    fn with_fill(self, size: Size<f32>) -> Taken
        ensures { result ≡ with_fill self size }
    {
        Taken::Kept(Replies {
            fill: Some(size),
            ..self
        })
    }

    // A reply to the question of a stage. None: it is of another kind than the question.
    pub fn take(self, stage: Stage, reply: Reply) -> Option<Taken>
        ensures { result ≡ taken self stage reply }
    {
        match (stage, reply) {
            (Stage::KeywordBoth, Reply::Both(size)) => {
                Some(self.with_keyword(KeywordReply::Both(size)))
            }
            (Stage::KeywordWidth, Reply::Width(width)) => {
                Some(self.with_keyword(KeywordReply::Width(width)))
            }
            (Stage::KeywordHeight, Reply::Height(height)) => {
                Some(self.with_keyword(KeywordReply::Height(height)))
            }
            (Stage::Fill, Reply::Both(size)) => Some(self.with_fill(size)),
            (Stage::LayOut, Reply::LaidOut(overflow)) => Some(Taken::Laid(overflow)),
            _ => None,
        }
    }
}
