ghost use Rattle.std.specs.Prelude.{◌≡◌, ◌∷◌, []};

use super::*;
use std::alloc::{AllocError, Global};
use std::marker::Brand;
use std::sync::Wait;
use std::test::*;
use std::thread;
use std::thread::Threads;
use xmp_base::{Bytes, NoMemory, Words};
use xmp_message::Message;

// Puts all of its stream, and then the stop word.
fn send_all<S: Streams, R: Wait>(rt: &R, mut sender: Sender<S>, messages: Vec<Message>)
    requires fresh { sender.entries ≡ [] }
    requires own { S.stream sender.ring ≡ messages.items }
{
    for m in messages {
        sender.send(rt, m);
    }
    sender.stop(rt);
}

// A message of so many numbers that begin with `first`.
fn message(alloc: Global, first: u32, many: u32) -> Result<Message, NoMemory> {
    let mut words = Words::new(alloc);
    for j in 0..many {
        words.push(i64::from(first) + i64::from(j))?;
    }
    Ok(Message {
        words,
        text: Bytes::new(alloc),
    })
}

// Whether it is that message.
fn is_message(m: &Message, first: u32, many: u32) -> bool {
    let mut next = i64::from(first);
    let words = m.words.as_slice();
    for &word in words {
        if word != next {
            return false;
        }
        next = word.wrapping_add(1);
    }
    words.len() == many as usize && m.text.as_slice().is_empty()
}

// Takes what comes up to the stop word, and counts the messages where each is the one that is due.
fn take_all<S: Streams, R: Wait>(rt: &R, mut receiver: Receiver<S>) -> Option<u32> {
    let mut count = 0u32;
    for _ in rt.forever() {
        match receiver.receive(rt) {
            Received::Stop => break,
            Received::Data(m) => {
                if !is_message(&m, count, count % 8) {
                    return None;
                }
                count = count.wrapping_add(1);
            }
        }
    }
    Some(count)
}

// Hands messages from one thread to another.
fn hand_over<S: Streams + Send + Sync, R: Threads + Wait + Sync>(
    rt: &R,
    alloc: Global,
    messages: Vec<Message>,
) -> Result<Option<u32>, NoMemory>
    requires { S.stream 3 ≡ messages.items }
{
    let (sender, receiver) = pair::<S>(alloc, 3)?;
    let (_, count) = thread::join(
        rt,
        move ||
            requires { (sender.entries ≡ []) × (S.stream sender.ring ≡ messages.items) }
        { send_all(rt, sender, messages) },
        move || take_all(rt, receiver),
    );
    Ok(count)
}

#[test]
fn two_threads_hand_over_a_thousand_messages_in_order(rt: HostRuntime) -> Result<(), Fail> {
    let alloc = rt.alloc();
    let mut messages = Vec::new(alloc);
    for i in 0..1000u32 {
        messages.push(message(alloc, i, i % 8)?)?;
    }
    let count = hand_over::<Brand, HostRuntime>(&rt, alloc, messages)?;
    assert_eq!(rt; count, Some(1000));
    Ok(())
}

// What the receiver of a stream of one message gives, in three calls: a letter for each.
fn one_and_stop<S: Streams, R: Wait>(
    rt: &R,
    alloc: Global,
    m: Message,
) -> Result<[char; 3], NoMemory>
    requires { S.stream 0 ≡ m ∷ [] }
{
    let (mut sender, mut receiver) = pair::<S>(alloc, 0)?;
    sender.send(rt, m);
    sender.stop(rt);
    let first = letter(receiver.receive(rt));
    let second = letter(receiver.receive(rt));
    let third = letter(receiver.receive(rt));
    Ok([first, second, third])
}

// E for an empty message, M for another, S for the stop word.
fn letter(received: Received) -> char {
    match received {
        Received::Stop => 'S',
        Received::Data(m) => {
            if m.words.as_slice().is_empty() && m.text.as_slice().is_empty() {
                'E'
            } else {
                'M'
            }
        }
    }
}

#[test]
fn the_stop_word_comes_last_and_stays(rt: HostRuntime) -> Result<(), Fail> {
    let alloc = rt.alloc();
    let empty = Message {
        words: Words::new(alloc),
        text: Bytes::new(alloc),
    };
    assert_eq!(rt;
        one_and_stop::<Brand, HostRuntime>(&rt, alloc, empty)?,
        ['E', 'S', 'S']
    );
    Ok(())
}
