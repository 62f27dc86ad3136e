// What a node has as it goes through its code.

use crate::stack::Stack;
use xmp_base::{Place, Words};
use xmp_message::Message;
use xmp_move::Plan;
use xmp_num::TrapKind;

/// A trap that was noted, with the indices of its nest, of which those that are not there are 0.
#[derive(Clone, Copy)]
pub struct Note {
    pub kind: TrapKind,
    pub at: Place,
    pub indices: [i64; 3],
}

/// The numbers of the open `Call`s, the last opened last; the open guard; and where in the text that was printed that of the node's
/// task begins.
#[derive(Drop)]
pub struct Frame {
    pub calls: Vec<usize>,
    pub guard: Option<u32>,
    pub text_from: Option<usize>,
}

/// The words of the store, the text, whether text is dropped, how many bytes of the input are read, how many steps are left, how
/// many turns were counted, and the trap that was noted last.
#[derive(Drop)]
pub struct Data {
    pub words: Vec<i64>,
    pub out: Vec<u8>,
    pub muted: bool,
    pub taken: usize,
    pub steps: u64,
    pub turns: u64,
    pub noted: Option<Note>,
}

/// The numbers that were taken for a transfer, its plan, and the words that the node says to itself.
#[derive(Drop)]
pub struct Moving {
    pub numbers: Vec<i64>,
    pub plan: Plan,
    pub own: Words,
}

/// Whether a node goes through its instructions, stands at a meeting by its number, or is over. At a meeting the text behind a mark
/// is that of the node's task, where there is a mark.
#[derive(Clone, Copy)]
pub enum Mode {
    Going,
    Meets(u32, Option<usize>),
    Over(TrapKind, Place),
}

/// To which nodes the message is out, the messages that came, both by node, and the transfer that is under way.
#[derive(Drop)]
pub struct Talk {
    pub mode: Mode,
    pub told: Vec<bool>,
    pub heard: Vec<Option<Message>>,
    pub moving: Option<Moving>,
}

/// A node: the number of the next instruction, and how many words were sent to each node.
#[derive(Drop)]
pub struct State {
    pub place: usize,
    pub stack: Stack,
    pub frame: Frame,
    pub data: Data,
    pub talk: Talk,
    pub sent: Vec<u64>,
}
