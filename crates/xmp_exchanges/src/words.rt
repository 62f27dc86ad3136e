// The words of a state that a transfer reads or writes.
ghost use Rattle.std.specs.Prelude.{◌≡◌, ◌∷◌, [], IfSome, pos, slice_get, unwrap_or};
ghost use Rattle.xmp_exchanges.specs.Places.{with_words, words_at};

use sqlite_items::Items;
use xmp_serial::State;

/// A scalar by its slot, or an array's row by its number.
#[derive(Clone, Copy)]
pub enum Place {
    Scalar(u32),
    Row(u32),
}

/// One of several words.
fn one(words: &[i64], at: usize) -> Option<&[i64]>
    ensures { IfSome result (λ word. word.now ≡ unwrap_or (slice_get words.now at) (pos 0) ∷ []) }
{
    if at < words.len() {
        Some(&words[at..at + 1])
    } else {
        None
    }
}

impl Place {
    /// The words there. There are none where the state has no such scalar.
    pub fn words(self, state: &State) -> Option<&[i64]>
        ensures { IfSome result (λ words. words.now ≡ words_at self state.now) }
    {
        match self {
            Place::Scalar(slot) => one(state.scalars(), slot as usize),
            Place::Row(array) => Some(state.row(array)),
        }
    }

    /// Puts others there.
    pub fn put(self, words: Vec<i64>, state: &mut State)
        ensures { state.new ≡ with_words self words.items state.old }
    {
        match self {
            Place::Scalar(slot) => {
                if let Some(value) = words.get(0) {
                    state.set_scalar(slot, *value);
                }
            }
            Place::Row(array) => {
                let mut row = Items::from_vec(words);
                state.swap_row(array, &mut row);
            }
        }
    }
}
