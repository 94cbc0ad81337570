// Scores that lines speak of.
ghost use Rattle.std.specs.Prelude.{◌≡◌, Some};
ghost use Rattle.cc_line.specs.View.{scratch_text, spot_text, stem_text};

use std::fmt;

/// A score that is no place. Those of one letter but `#t` and `#w` are anyone's between two instructions; those of more
/// bytes stand.
#[derive(Clone, Copy, Debug)]
pub enum Scratch {
    /// `#a`
    A,
    /// `#b`
    B,
    /// `#c`
    C,
    /// `#d`
    D,
    /// `#e`
    E,
    /// `#f`
    F,
    /// `#g`
    G,
    /// `#h`
    H,
    /// `#i`
    I,
    /// `#k`
    K,
    /// `#m`
    M,
    /// `#n`
    N,
    /// `#p`
    P,
    /// `#q`
    Q,
    /// `#r`
    R,
    /// `#s`
    S,
    /// `#u`
    U,
    /// `#v`
    V,
    /// `#x`
    X,
    /// `#y`
    Y,
    /// `#z`
    Z,
    /// `#t`: the trap that was recorded, or 0.
    Trap,
    /// `#w`: the charge of a piece.
    Charge,
    /// `#e1`: 2.
    Two,
    /// `#e5`: 32.
    ThirtyTwo,
    /// `#e16`: 65536.
    HalfWord,
    /// `#e31`: -2147483648.
    Least,
    /// `#mb`: the first address of the page of memory that is the window.
    Window,
    /// `#e2`: 4.
    Four,
    /// `#e14`: 16384, the words of a page.
    PageWords,
    /// `#b0`: of `Stem::Byte` that of 0, as those to `#b3`.
    Byte0,
    Byte1,
    Byte2,
    Byte3,
    /// `#c0`: of `Stem::Half` that of 0, as those to `#c2`.
    Half0,
    Half1,
    Half2,
    /// `#d0`: of `Stem::Top` that of 0, as those to `#d3`.
    Top0,
    Top1,
    Top2,
    Top3,
    /// `#f1`: of `Stem::Rest` that of 1, as those to `#f3`.
    Rest1,
    Rest2,
    Rest3,
}

impl Scratch {
    /// Its holder.
    pub fn holder(self) -> &'static str
        ensures { result.now ≡ scratch_text self }
    {
        match self {
            Scratch::A => "#a",
            Scratch::B => "#b",
            Scratch::C => "#c",
            Scratch::D => "#d",
            Scratch::E => "#e",
            Scratch::F => "#f",
            Scratch::G => "#g",
            Scratch::H => "#h",
            Scratch::I => "#i",
            Scratch::K => "#k",
            Scratch::M => "#m",
            Scratch::N => "#n",
            Scratch::P => "#p",
            Scratch::Q => "#q",
            Scratch::R => "#r",
            Scratch::S => "#s",
            Scratch::U => "#u",
            Scratch::V => "#v",
            Scratch::X => "#x",
            Scratch::Y => "#y",
            Scratch::Z => "#z",
            Scratch::Trap => "#t",
            Scratch::Charge => "#w",
            Scratch::Two => "#e1",
            Scratch::ThirtyTwo => "#e5",
            Scratch::HalfWord => "#e16",
            Scratch::Least => "#e31",
            Scratch::Window => "#mb",
            Scratch::Four => "#e2",
            Scratch::PageWords => "#e14",
            Scratch::Byte0 => "#b0",
            Scratch::Byte1 => "#b1",
            Scratch::Byte2 => "#b2",
            Scratch::Byte3 => "#b3",
            Scratch::Half0 => "#c0",
            Scratch::Half1 => "#c1",
            Scratch::Half2 => "#c2",
            Scratch::Top0 => "#d0",
            Scratch::Top1 => "#d1",
            Scratch::Top2 => "#d2",
            Scratch::Top3 => "#d3",
            Scratch::Rest1 => "#f1",
            Scratch::Rest2 => "#f2",
            Scratch::Rest3 => "#f3",
        }
    }
}

impl fmt::Display for Scratch {
    ghost output = { λ h. Some (scratch_text h) };

    fn fmt<W: fmt::Write>(&self, f: &mut fmt::Formatter<W>) -> fmt::Result {
        f.write_str(self.holder())
    }
}

/// The families of standing scores, each a power of 256 by its number. The holder is the stem, which is printed, and
/// the number behind it.
#[derive(Clone, Copy, Debug)]
pub enum Stem {
    /// `#b`: 256 to the power of the number.
    Byte,
    /// `#d`: 256 to the power of 3 less the number.
    Top,
    /// `#c`: 256 to the power of 2 less the number.
    Half,
    /// `#f`: 256 to the power of 4 less the number.
    Rest,
}

impl fmt::Display for Stem {
    ghost output = { λ h. Some (stem_text h) };

    fn fmt<W: fmt::Write>(&self, f: &mut fmt::Formatter<W>) -> fmt::Result {
        f.write_str(match self {
            Stem::Byte => "#b",
            Stem::Top => "#d",
            Stem::Half => "#c",
            Stem::Rest => "#f",
        })
    }
}

/// A score that a line speaks of.
#[derive(Clone, Copy, Debug)]
pub enum Spot {
    /// One that is no place.
    Scratch(Scratch),
    /// A place of the innermost frame that is a score.
    Place(u32),
}

impl fmt::Display for Spot {
    ghost output = { λ x. Some (spot_text x) };

    fn fmt<W: fmt::Write>(&self, f: &mut fmt::Formatter<W>) -> fmt::Result {
        match self {
            Spot::Scratch(scratch) => write!(f, "{scratch}"),
            Spot::Place(place) => write!(f, "#{place}"),
        }
    }
}
