// util/math.rs: what may be held between two bounds, each of which may be absent. Only the pairings that the port uses.
ghost use Rattle.std.specs.Prelude.{◌≡◌, Float, Option, None, Some, refl};
ghost use Rattle.util.specs.Maybe.{at_most, at_least, clamped, map_clamped};

use crate::sys;

// The Rust's trait of this name, whose `maybe_add` and `maybe_max` are `map` of an Option here.
// `min` and `max` stay two parameters, here and in the callers: each is a field of its own there, and a struct of both would be made at each call.
pub trait MaybeMath {
    ghost clamp: { Self → Option Float → Option Float → Self };

    // Max first, then min, so that min wins. An absent bound doesn't bind.
    fn maybe_clamp(self, min: Option<f32>, max: Option<f32>) -> Self
        ensures { result ≡ clamp self min max };

    ghost unbounded: { (x : Self) → clamp x None None ≡ x };
}

// The smaller of it and max, then the larger of that and min.
impl MaybeMath for f32 {
    ghost clamp = { clamped };

    ghost unbounded = { λ x. unfold clamped in unfold at_most in unfold at_least in refl };

    fn maybe_clamp(self, min: Option<f32>, max: Option<f32>) -> f32 {
        let lowered = match max {
            None => self,
            Some(high) => sys::f32_min(self, high),
        };
        match min {
            None => lowered,
            Some(low) => sys::f32_max(lowered, low),
        }
    }
}

// Of what is present.
impl MaybeMath for Option<f32> {
    ghost clamp = { map_clamped };

    ghost unbounded = { elim [ None ↦ unfold map_clamped in refl | Some x ↦ unfold map_clamped in unfold clamped in unfold at_most in unfold at_least in refl ] };

    fn maybe_clamp(self, min: Option<f32>, max: Option<f32>) -> Option<f32> {
        self.map(|x| x.maybe_clamp(min, max))
    }
}
