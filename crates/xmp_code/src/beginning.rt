// A node before its first instruction.
ghost use Rattle.std.specs.Prelude.{◌≡◌, ◌≤◌, ◌+◌, ◌*◌, [], length, replicate, vec_capacity, None, IfOk};
ghost use Rattle.xmp_instr.specs.Node.{beginning, fresh, no_calls};
ghost use Rattle.xmp_instr.specs.Valid.{IsValid};
ghost use Rattle.xmp_code.specs.declared.state.Mode.TheVariants as mode;
ghost use Rattle.xmp_code.specs.States.{data_of, frame_of, node_of};
ghost use Rattle.xmp_code.specs.Fitting.{StateFits};

use crate::stack::Stack;
use crate::state::{Data, Frame, Mode, State, Talk};
use std::alloc::Global;
use xmp_base::NoMemory;
use xmp_instr::CodeParts;
use xmp_message::Message;

fn no_messages(alloc: Global, count: usize) -> Result<Vec<Option<Message>>, NoMemory>
    ensures { IfOk result (λ v. length v.items ≡ count) }
{
    let mut messages = Vec::new(alloc);
    'nodes: for _k in 0..count {
        match messages.push(None) {
            Ok(()) => {}
            Err(_) => return Err(NoMemory),
        }
    }
    Ok(messages)
}

fn fresh_data(alloc: Global, code: &CodeParts) -> Result<Data, NoMemory>
    ensures { IfOk result (λ d. data_of None d ≡ fresh code.now) }
{
    let mut words = Vec::new(alloc);
    words.resize(code.words as usize, 0)?;
    Ok(Data {
        words,
        out: Vec::new(alloc),
        muted: false,
        taken: 0,
        steps: code.steps,
        turns: 0,
        noted: None,
    })
}

fn fresh_talk(alloc: Global, count: usize) -> Result<Talk, NoMemory>
    ensures { IfOk result (λ t. (t.mode ≡ mode.Going) × (length t.told.items ≡ count) × (length t.heard.items ≡ count)) }
{
    let heard = no_messages(alloc, count)?;
    let mut told = Vec::new(alloc);
    match told.resize(count, false) {
        Ok(()) => Ok(Talk {
            mode: Mode::Going,
            told,
            heard,
            moving: None,
        }),
        Err(_) => {
            drop(heard);
            Err(NoMemory)
        }
    }
}

fn fresh_frame(alloc: Global, calls: usize) -> Result<Frame, NoMemory>
    ensures frame { IfOk result (λ f. frame_of f ≡ no_calls) }
    ensures room { IfOk result (λ f. calls ≤ vec_capacity f.calls) }
{
    Ok(Frame {
        calls: Vec::with_capacity(alloc, calls)?,
        guard: None,
        text_from: None,
    })
}

fn no_counts(alloc: Global, count: usize) -> Result<Vec<u64>, NoMemory>
    ensures { IfOk result (λ v. v.items ≡ replicate count 0) }
{
    let mut sent = Vec::new(alloc);
    sent.resize(count, 0)?;
    Ok(sent)
}

fn fresh_values(alloc: Global, code: &CodeParts, nodes: usize) -> Result<(Data, Vec<u64>), NoMemory>
    ensures data { IfOk result (λ p. data_of None p.0 ≡ fresh code.now) }
    ensures sent { IfOk result (λ p. p.1.items ≡ replicate nodes 0) }
{
    let sent = no_counts(alloc, nodes)?;
    match fresh_data(alloc, code) {
        Ok(data) => Ok((data, sent)),
        Err(NoMemory) => {
            drop(sent);
            Err(NoMemory)
        }
    }
}

/// How many values a node may have: those of the most open calls, and of the code outside.
fn most_values(code: &CodeParts) -> usize
    ensures { result ≡ (code.now.calls + 1) * code.now.depth }
{
    (code.calls as usize + 1) * code.depth as usize
}

impl State {
    /// The node before its first instruction, with this stack and frame.
    fn with_values(
        alloc: Global,
        code: &CodeParts,
        stack: Stack,
        frame: Frame,
    ) -> Result<State, NoMemory>
        requires stack { stack ≡ record { values = []; room = (code.now.calls + 1) * code.now.depth } }
        requires frame { frame_of frame ≡ no_calls }
        requires room { code.now.calls ≤ vec_capacity frame.calls }
        requires valid { IsValid code.now }
        ensures node { IfOk result (λ s. node_of s ≡ beginning code.now) }
        ensures fits { IfOk result (λ s. StateFits code.now s) }
    {
        let nodes = code.nodes as usize;
        let (data, sent) = match fresh_values(alloc, code, nodes) {
            Ok(values) => values,
            Err(NoMemory) => {
                drop(stack);
                drop(frame);
                return Err(NoMemory);
            }
        };
        match fresh_talk(alloc, nodes) {
            Ok(talk) => Ok(State {
                place: 0,
                stack,
                frame,
                data,
                talk,
                sent,
            }),
            Err(NoMemory) => {
                drop(stack);
                drop(frame);
                drop(data);
                drop(sent);
                Err(NoMemory)
            }
        }
    }

    /// The node before its first instruction.
    pub fn new(alloc: Global, code: &CodeParts) -> Result<State, NoMemory>
        requires { IsValid code.now }
        ensures node { IfOk result (λ s. node_of s ≡ beginning code.now) }
        ensures fits { IfOk result (λ s. StateFits code.now s) }
    {
        let stack = Stack::new(alloc, most_values(code))?;
        match fresh_frame(alloc, code.calls as usize) {
            Ok(frame) => State::with_values(alloc, code, stack, frame),
            Err(NoMemory) => {
                drop(stack);
                Err(NoMemory)
            }
        }
    }
}
