// What may be wrong with a text, and what it is called.
ghost use Rattle.std.specs.Prelude.{◌≡◌, [], MatchResult};
ghost use Rattle.sheet_text.specs.Faults.{number_of};
ghost use Rattle.sheet_text.specs.Composing.{reason};

// What is wrong with a text. The numbers go on from the sheet's, with room between.
#[derive(Clone, Copy, Debug, PartialEq, Eq)]
pub enum Wrong {
    Long,
    First,
    Number,
    Large,
    Few,
    Many,
    Rows,
}

impl From<Wrong> for u8 {
    ghost from_gives = { λ wrong number. number ≡ number_of wrong };

    fn from(wrong: Wrong) -> u8 {
        match wrong {
            Wrong::Long => 31,
            Wrong::First => 32,
            Wrong::Number => 33,
            Wrong::Large => 34,
            Wrong::Few => 35,
            Wrong::Many => 36,
            Wrong::Rows => 37,
        }
    }
}

// A number that no fault of a text has is handed back.
impl TryFrom<u8> for Wrong {
    type Error = u8;

    ghost try_from_gives = { λ number r. MatchResult r (λ wrong. number_of wrong ≡ number) (λ back. (back ≡ number) × (reason number ≡ [])) };

    #[tactic(auto, unfolding(crate::specs::Composing::reason))]
    fn try_from(number: u8) -> Result<Wrong, u8> {
        match number {
            31 => Ok(Wrong::Long),
            32 => Ok(Wrong::First),
            33 => Ok(Wrong::Number),
            34 => Ok(Wrong::Large),
            35 => Ok(Wrong::Few),
            36 => Ok(Wrong::Many),
            37 => Ok(Wrong::Rows),
            _ => Err(number),
        }
    }
}

impl Wrong {
    // What a fault is called.
    #[tactic(auto, unfolding(crate::specs::Composing::reason))]
    pub(crate) fn words(self) -> &'static [u8]
        ensures { result.now ≡ reason (number_of self) }
    {
        match self {
            Wrong::Long => b"text too long",
            Wrong::First => b"processors expected",
            Wrong::Number => b"not a number",
            Wrong::Large => b"number too large",
            Wrong::Few => b"number missing",
            Wrong::Many => b"nothing more expected",
            Wrong::Rows => b"a 33rd row",
        }
    }
}

// A fault of a text and its place, both counted from 1.
#[derive(Clone, Copy, Debug, PartialEq, Eq)]
pub struct Fault {
    pub wrong: Wrong,
    pub line: usize,
    pub column: usize,
}
