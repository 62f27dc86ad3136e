// Messages that came.
ghost use Rattle.std.specs.Prelude.{◌≡◌, slice_get, slice_set};
ghost use Rattle.xmp_move.specs.Stores.{write_all};
ghost use Rattle.xmp_instr.specs.Meetings.{came};

use xmp_message::Message;

/// The words of the message of a node; none where none came.
pub fn words_said(heard: &[Option<Message>], from: u32) -> &[i64]
    ensures { result.now ≡ (came (slice_get heard.now from)).words }
{
    match heard.get(from as usize) {
        Some(Some(message)) => message.words.as_slice(),
        _ => &[],
    }
}

/// The text of the message of a node; none where none came.
pub fn text_said(heard: &[Option<Message>], from: u32) -> &[u8]
    ensures { result.now ≡ (came (slice_get heard.now from)).text }
{
    match heard.get(from as usize) {
        Some(Some(message)) => message.text.as_slice(),
        _ => &[],
    }
}

/// Writes a word into a slot, where there is one.
pub fn put(words: &mut [i64], slot: u32, value: i64)
    ensures { words.new ≡ slice_set words.old slot value }
{
    let at = slot as usize;
    if at < words.len() {
        words[at] = value;
    }
}

/// Writes words into slots.
pub fn write_all(words: &mut [i64], slots: &[u32], said: &[i64])
    ensures { words.new ≡ write_all words.old slots.now said.now }
{
    let count = slots.len().min(said.len());
    'slots: for k in 0..count {
        put(words, slots[k], said[k]);
    }
}
