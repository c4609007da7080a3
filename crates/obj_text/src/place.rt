//! Where a part of a text stands, as far as that is known when it is read.

ghost use Rattle.std.specs.Prelude.{◌≡◌, ◌<◌, ◌^◌};
ghost use Rattle.obj_text.specs.Places.{before};

/// Where a part stands in its text.
#[derive(Clone, Copy, Drop)]
pub enum Place {
    /// Behind so many vertices.
    Behind(u32),
    /// Anywhere: what stands before it is not known. Its lines are read as if no vertex stood before them, so that a
    /// reference that counts back is a fault there.
    Anywhere,
}

impl Place {
    /// Behind how many vertices a line is read that stands behind so many of its part.
    #[inline(always)]
    pub fn before(&self, points: usize) -> u32
        requires { before self.now points < 2 ^ 32 }
        ensures { result ≡ before self.now points }
    {
        match self {
            Place::Behind(vertices) => *vertices + points as u32,
            Place::Anywhere => 0,
        }
    }
}
