// How many words the ends of parts are.
ghost use Rattle.std.specs.Prelude.{◌≡◌, ◌==◌, [], if◌then◌else◌, slice_get, Some};
ghost use Rattle.xmp_meaning.specs.Messages.{part_words, words_alone, words_sent};
ghost use Rattle.xmp_nodes.specs.Nodes.{bounded};

use crate::end::PartEnd;
use sqlite_items::at;

/// How many words one node says to another: three of its part's end, and the values of its reduction variables.
pub fn words_of(ends: &[PartEnd], from: usize, to: usize) -> u64
    ensures { result ≡ bounded (words_sent (if from == to then words_alone [] else words_alone (part_words (slice_get ends.now from)))) }
{
    if from == to {
        return 0;
    }
    match at(ends, from) {
        Some(end) => end_words(end),
        None => 0,
    }
}

/// How many words an end is.
fn end_words(end: &PartEnd) -> u64
    ensures { result ≡ bounded (words_sent (words_alone (part_words (Some end.now)))) }
{
    (end.values.len() as u64).saturating_add(3)
}
