// style/available_space.rs: the space that a box may take in one axis.
ghost use Rattle.std.specs.Prelude.{refl};
ghost use Rattle.util.specs.Maybe.{at_most, at_least, clamped};
ghost use Rattle.style.specs.declared.available_space.AvailableSpace.TheVariants.{Definite, MinContent, MaxContent};
ghost use Rattle.style.specs.Values.{clamped_space};

use util::math::MaybeMath;

#[derive(Clone, Copy, PartialEq)]
pub enum AvailableSpace {
    Definite(f32),
    MinContent,
    MaxContent,
}

// A definite space is clamped; the others stay.
impl MaybeMath for AvailableSpace {
    ghost clamp = { clamped_space };

    ghost unbounded = { elim [ Definite x ↦ unfold clamped_space in unfold clamped in unfold at_most in unfold at_least in refl | MinContent ↦ unfold clamped_space in refl | MaxContent ↦ unfold clamped_space in refl ] };

    fn maybe_clamp(self, min: Option<f32>, max: Option<f32>) -> AvailableSpace {
        match self {
            AvailableSpace::Definite(x) => AvailableSpace::Definite(x.maybe_clamp(min, max)),
            AvailableSpace::MinContent | AvailableSpace::MaxContent => self,
        }
    }
}
