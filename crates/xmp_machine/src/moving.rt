// The words of a transfer, written as they were said.
ghost use Rattle.std.specs.Prelude.{◌≡◌, ◌<◌, ℕ, length, map};
ghost use Rattle.xmp_num.specs.Arithmetic.{wrap};
ghost use Rattle.xmp_move.specs.Plans.{IsPlanOf};
ghost use Rattle.xmp_move.specs.Stores.{write_all};
ghost use Rattle.xmp_instr.specs.Meetings.{filled_slots};
ghost use Rattle.xmp_instr.specs.Resumed.{type_of};
ghost use Rattle.xmp_instr.specs.Valid.{IsValid, MoveFits};
ghost use Rattle.xmp_machine.specs.Resuming.{moved_words, words_by};

use crate::heard::words_said;
use xmp_code::Moving;
use xmp_instr::CodeParts;
use xmp_message::Message;
use xmp_move::{MoveKind, unpack};
use xmp_num::Ty;

/// The type that moved words are converted to.
fn type_of(kind: &MoveKind) -> Ty
    ensures { result ≡ type_of kind.now }
{
    match kind {
        MoveKind::Reflect { .. } => Ty::Long,
        MoveKind::Gmove { ty, .. } => *ty,
    }
}

/// The words of a node, which has its own.
fn words_by<'a>(node: u32, own: &'a [i64], heard: &'a [Option<Message>], k: u32) -> &'a [i64]
    ensures { result.now ≡ words_by node own.now heard.now k }
{
    if k == node { own } else { words_said(heard, k) }
}

/// Writes the words of one node.
fn write_of(
    code: &CodeParts,
    kind: &MoveKind,
    moving: &Moving,
    said: &[i64],
    k: u32,
    words: &mut [i64],
)
    requires valid { IsValid code.now }
    requires kind { MoveFits code.now kind.now }
    requires plan { IsPlanOf kind.now moving.now.numbers.items code.now.node moving.now.plan }
    requires words { length words.old ≡ code.now.words }
    requires node { k < code.now.nodes }
    requires long { length said.now ≡ length (filled_slots kind.now moving.now.numbers.items code.now.node k) }
    ensures { words.new ≡ write_all words.old (filled_slots kind.now moving.now.numbers.items code.now.node k)
        (map (wrap (type_of kind.now)) said.now) }
{
    let _count = code.nodes;
    unpack(&moving.plan, words, k, said, type_of(kind));
}

/// Writes the words of all nodes, in their order.
pub fn write_moved(
    code: &CodeParts,
    kind: &MoveKind,
    moving: &Moving,
    heard: &[Option<Message>],
    words: &mut [i64],
)
    requires valid { IsValid code.now }
    requires kind { MoveFits code.now kind.now }
    requires plan { IsPlanOf kind.now moving.now.numbers.items code.now.node moving.now.plan }
    requires words { length words.old ≡ code.now.words }
    requires long { (k : ℕ) → k < code.now.nodes → length (words_by code.now.node moving.now.own heard.now k)
        ≡ length (filled_slots kind.now moving.now.numbers.items code.now.node k) }
    ensures { words.new ≡ moved_words code.now kind.now moving.now.numbers.items moving.now.own heard.now code.now.nodes words.old }
{
    'nodes: for k in 0..code.nodes {
        let said = words_by(code.node, moving.own.as_slice(), heard, k);
        write_of(code, kind, moving, said, k, words);
    }
}
