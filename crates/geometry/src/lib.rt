// geometry.rs: lines, points, sizes and rectangles, of floats and of what else a side may be, by value.
#![tactic(auto, unfolding(crate::specs::Geometry::rect_or_zero, crate::specs::Geometry::sum_x, crate::specs::Geometry::sum_y, crate::specs::Geometry::sums, crate::specs::Geometry::rect_sum, crate::specs::Geometry::union_of, crate::specs::Geometry::smaller_size, crate::specs::Geometry::definite, crate::specs::Geometry::both_present, crate::specs::Geometry::first_size, crate::specs::Geometry::filled_size, crate::specs::Geometry::added_size, crate::specs::Geometry::raised_size, crate::specs::Geometry::completed, crate::specs::Geometry::with_ratio, util::specs::Maybe::map_add, util::specs::Maybe::map_larger))]

ghost use Rattle.std.specs.Prelude.{◌≡◌, ◌&&◌, is_some};
ghost use Rattle.geometry.specs.Geometry.{map_line, map_size, map_rect, zip_sizes, zip_sides, moved_by, counted_from, both_ends_present, line_x, line_y, rect_of, rect_or_zero, sum_x, sum_y, sums, rect_sum, union_of, smaller_size, both_present, first_size, filled_size, definite, added_size, raised_size, clamped_each, with_ratio};

use std::ops::Add;
use util::math::MaybeMath;
use util::sys;

#[derive(Clone, Copy, PartialEq)]
pub struct Line<T> {
    pub start: T,
    pub end: T,
}

#[derive(Clone, Copy, PartialEq, Default)]
pub struct Point<T> {
    pub x: T,
    pub y: T,
}

#[derive(Clone, Copy, PartialEq, Default)]
pub struct Size<T> {
    pub width: T,
    pub height: T,
}

#[derive(Clone, Copy, PartialEq, Default)]
pub struct Rect<T> {
    pub left: T,
    pub right: T,
    pub top: T,
    pub bottom: T,
}

impl<T: Copy> Line<T> {
    pub fn map<R, F: Fn(T) -> R>(self, f: F) -> Line<R>
        requires { F.pre f self.start × F.pre f self.end }
        ensures each { F.post f self.start result.start × F.post f self.end result.end }
        ensures value { (g : T → R) → ((x : T) (r : R) → F.post f x r → r ≡ g x) → result ≡ map_line g self }
    {
        Line {
            start: f(self.start),
            end: f(self.end),
        }
    }
}

impl Line<f32> {
    // Both ends moved by an offset.
    pub fn translate(self, offset: f32) -> Line<f32>
        ensures { result ≡ moved_by self offset }
    {
        self.map(|end| end + offset)
    }

    // Both ends, counted from an origin.
    pub fn relative_to(self, origin: f32) -> Line<f32>
        ensures { result ≡ counted_from self origin }
    {
        self.map(|end| end - origin)
    }
}

impl Line<Option<f32>> {
    pub fn both_ends_defined(self) -> bool
        ensures { result ≡ both_ends_present self }
    {
        self.start.is_some() && self.end.is_some()
    }
}

impl<T: Copy> Rect<T> {
    // The rectangle whose left and right are one line, top and bottom the other.
    // Side by side by hand, as the two below: four sides are two lines, which no map makes of them.
    pub fn from_components(horizontal: Line<T>, vertical: Line<T>) -> Rect<T>
        ensures { result ≡ rect_of horizontal vertical }
    {
        Rect {
            left: horizontal.start,
            right: horizontal.end,
            top: vertical.start,
            bottom: vertical.end,
        }
    }

    // Left and right.
    pub fn horizontal_components(self) -> Line<T>
        ensures { result ≡ line_x self }
    {
        Line {
            start: self.left,
            end: self.right,
        }
    }

    // Top and bottom.
    pub fn vertical_components(self) -> Line<T>
        ensures { result ≡ line_y self }
    {
        Line {
            start: self.top,
            end: self.bottom,
        }
    }

    pub fn map<R, F: Fn(T) -> R>(self, f: F) -> Rect<R>
        requires { F.pre f self.left × F.pre f self.right × F.pre f self.top × F.pre f self.bottom }
        ensures each { F.post f self.left result.left × F.post f self.right result.right × F.post f self.top result.top × F.post f self.bottom result.bottom }
        ensures value { (g : T → R) → ((x : T) (r : R) → F.post f x r → r ≡ g x) → result ≡ map_rect g self }
    {
        Rect {
            left: f(self.left),
            right: f(self.right),
            top: f(self.top),
            bottom: f(self.bottom),
        }
    }

    // Left and right each with the width, top and bottom each with the height.
    pub fn zip_size<U: Copy, R, F: Fn(T, U) -> R>(self, size: Size<U>, f: F) -> Rect<R>
        requires { F.pre f self.left size.width × F.pre f self.right size.width × F.pre f self.top size.height × F.pre f self.bottom size.height }
        ensures each { F.post f self.left size.width result.left × F.post f self.right size.width result.right × F.post f self.top size.height result.top × F.post f self.bottom size.height result.bottom }
        ensures value { (g : T → U → R) → ((x : T) (y : U) (r : R) → F.post f x y r → r ≡ g x y) → result ≡ zip_sides g self size }
    {
        Rect {
            left: f(self.left, size.width),
            right: f(self.right, size.width),
            top: f(self.top, size.height),
            bottom: f(self.bottom, size.height),
        }
    }
}

// Side by side, as `padding + border`.
impl Add for Rect<f32> {
    type Output = Rect<f32>;

    ghost add_gives = { λ a b r. r ≡ rect_sum a b };

    fn add(self, rhs: Rect<f32>) -> Rect<f32> {
        Rect {
            left: self.left + rhs.left,
            right: self.right + rhs.right,
            top: self.top + rhs.top,
            bottom: self.bottom + rhs.bottom,
        }
    }
}

// The Rust's names for what `default()` gives, here and for sizes: they say which value that is.
impl Rect<f32> {
    pub const ZERO: Rect<f32> = Rect {
        left: 0.0,
        right: 0.0,
        top: 0.0,
        bottom: 0.0,
    };

    pub fn horizontal_axis_sum(self) -> f32
        ensures { result ≡ sum_x self }
    {
        self.left + self.right
    }

    pub fn vertical_axis_sum(self) -> f32
        ensures { result ≡ sum_y self }
    {
        self.top + self.bottom
    }

    // The sums of both axes; not the width and height of the rectangle.
    // A line for each axis: a closure over both would be told which two sides to add.
    pub fn sum_axes(self) -> Size<f32>
        ensures { result ≡ sums self }
    {
        Size {
            width: self.horizontal_axis_sum(),
            height: self.vertical_axis_sum(),
        }
    }

    // The smallest rectangle that holds both, by their edges.
    // No zip of one closure: left and top take the smaller, right and bottom the larger.
    pub fn union(self, other: Rect<f32>) -> Rect<f32>
        ensures { result ≡ union_of self other }
    {
        Rect {
            left: sys::f32_min(self.left, other.left),
            right: sys::f32_max(self.right, other.right),
            top: sys::f32_min(self.top, other.top),
            bottom: sys::f32_max(self.bottom, other.bottom),
        }
    }
}

impl Rect<Option<f32>> {
    // An absent side counts as 0.
    pub fn unwrap_or_zero(self) -> Rect<f32>
        ensures { result ≡ rect_or_zero self }
    {
        self.map(|side| side.unwrap_or(0.0))
    }
}

impl<T: Copy> Size<T> {
    pub fn map<R, F: Fn(T) -> R>(self, f: F) -> Size<R>
        requires { F.pre f self.width × F.pre f self.height }
        ensures each { F.post f self.width result.width × F.post f self.height result.height }
        ensures value { (g : T → R) → ((x : T) (r : R) → F.post f x r → r ≡ g x) → result ≡ map_size g self }
    {
        Size {
            width: f(self.width),
            height: f(self.height),
        }
    }

    pub fn zip_map<U: Copy, R, F: Fn(T, U) -> R>(self, other: Size<U>, f: F) -> Size<R>
        requires { F.pre f self.width other.width × F.pre f self.height other.height }
        ensures each { F.post f self.width other.width result.width × F.post f self.height other.height result.height }
        ensures value { (g : T → U → R) → ((x : T) (y : U) (r : R) → F.post f x y r → r ≡ g x y) → result ≡ zip_sizes g self other }
    {
        Size {
            width: f(self.width, other.width),
            height: f(self.height, other.height),
        }
    }
}

impl<T: MaybeMath + Copy> Size<T> {
    // Each side by its own bounds.
    // A line for each axis: it takes three sizes, `zip_map` two.
    pub fn maybe_clamp(self, min: Size<Option<f32>>, max: Size<Option<f32>>) -> Size<T>
        ensures { result ≡ clamped_each T.clamp self min max }
    {
        Size {
            width: self.width.maybe_clamp(min.width, max.width),
            height: self.height.maybe_clamp(min.height, max.height),
        }
    }
}

impl Size<f32> {
    pub const ZERO: Size<f32> = Size {
        width: 0.0,
        height: 0.0,
    };

    pub fn f32_min(self, rhs: Size<f32>) -> Size<f32>
        ensures { result ≡ smaller_size self rhs }
    {
        self.zip_map(rhs, sys::f32_min)
    }

    // `map(Some)` of the Rust.
    pub fn some(self) -> Size<Option<f32>>
        ensures { result ≡ definite self }
    {
        self.map(|side| Some(side))
    }
}

impl Size<Option<f32>> {
    pub const NONE: Size<Option<f32>> = Size {
        width: None,
        height: None,
    };

    // A line for each axis, as of a line's ends: two make one bool, which no map does.
    pub fn both_axis_defined(self) -> bool
        ensures { result ≡ both_present self }
    {
        self.width.is_some() && self.height.is_some()
    }

    pub fn or(self, alt: Size<Option<f32>>) -> Size<Option<f32>>
        ensures { result ≡ first_size self alt }
    {
        self.zip_map(alt, |side, alt| side.or(alt))
    }

    pub fn unwrap_or(self, alt: Size<f32>) -> Size<f32>
        ensures { result ≡ filled_size self alt }
    {
        self.zip_map(alt, |side, alt| side.unwrap_or(alt))
    }

    pub fn maybe_add(self, rhs: Size<f32>) -> Size<Option<f32>>
        ensures { result ≡ added_size self rhs }
    {
        self.zip_map(rhs, |side, rhs| side.map(|x| x + rhs))
    }

    pub fn maybe_max(self, rhs: Size<f32>) -> Size<Option<f32>>
        ensures { result ≡ raised_size self rhs }
    {
        self.zip_map(rhs, |side, rhs| side.map(|x| sys::f32_max(x, rhs)))
    }

    // The ratio gives a lone side its other side; it changes no side that is there.
    pub fn maybe_apply_aspect_ratio(self, aspect_ratio: Option<f32>) -> Size<Option<f32>>
        ensures { result ≡ with_ratio aspect_ratio self }
    {
        let Some(ratio) = aspect_ratio else {
            return self;
        };
        match (self.width, self.height) {
            (None, Some(h)) => Size {
                width: Some(h * ratio),
                height: Some(h),
            },
            (Some(w), None) => Size {
                width: Some(w),
                height: Some(w / ratio),
            },
            _ => self,
        }
    }
}
