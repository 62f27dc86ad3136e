// What lies on a ring, and what an end of a ring knows of it.
use std::collections::LinkedList;
use xmp_message::Message;

/// What is handed over: a message, or the stop word, behind which nothing comes.
#[derive(Drop)]
pub enum Received {
    Data(Message),
    Stop,
}

/// What a pass knows: whether it may push, whether it may pop, the number of its ring, and the entries that it pushed or
/// popped. No value of it is made.
pub struct Port {
    pub sends: bool,
    pub receives: bool,
    pub ring: u32,
    pub entries: LinkedList<Received>,
}
