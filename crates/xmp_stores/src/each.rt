// What each node gives of its own store, all collected.
ghost use Rattle.std.specs.Prelude.{◌≡◌, ◌+◌, ◌<◌, ◌^◌, ◌++◌, ◌∷◌, [], IfOk};
ghost use Rattle.xmp_meaning.specs.Traffic.{node_context};
ghost use Rattle.xmp_stores.specs.Each.{each_by};

use crate::lists::push;
use crate::nodes::Nodes;
use crate::together::Together;
use xmp_base::NoMemory;
use xmp_serial::{Interpreter, State};

/// What a node gives of its own store, and what it leaves there: a deed of which each node's answer is asked, as the end of a part or of a
/// task is.
pub trait Share {
    ghost use Rattle.std.specs.Prelude.{◌≡◌, ℕ, IfOk};
    ghost use Rattle.xmp_meaning.specs.Context.{Context};
    ghost use Rattle.xmp_meaning.specs.Runs.{State};
    ghost use Rattle.xmp_stores.specs.Contexts.{context_by};

    type Gives: Drop;

    ghost gives: { Self → (node : ℕ) → Context → State (Unit {0}) → Self.Gives };

    ghost leaves: { Self → (node : ℕ) → Context → State (Unit {0}) → State (Unit {0}) };

    fn run(&self, node: u32, at: &Interpreter, state: &mut State) -> Result<Self::Gives, NoMemory>
        ensures gives { IfOk result (λ given. given ≡ gives self.now node (context_by at.now) state.old) }
        ensures leaves { IfOk result (λ given. state.new ≡ leaves self.now node (context_by at.now) state.old) };
}

impl Together<'_, '_> {
    /// What each node gives, in the order of the nodes. Want of memory is answered also where there are more stores than nodes.
    pub fn each_does<S: Share>(
        &self,
        share: &S,
        nodes: &mut Nodes,
    ) -> Result<Vec<S::Gives>, NoMemory>
        ensures gives { IfOk result (λ given. given.items ≡ each_by (λ node. S.gives share.now node (node_context self.now.program.now node self.now.input.now)) 0 nodes.old.stores) }
        ensures leaves { IfOk result (λ given. nodes.new ≡ record nodes.old { stores = each_by (λ node. S.leaves share.now node (node_context self.now.program.now node self.now.input.now)) 0 nodes.old.stores }) }
    {
        let mut all = Vec::new(self.alloc);
        self.each_from(share, 0, nodes.stores.as_mut_slice(), &mut all)?;
        Ok(all)
    }

    /// The same of the nodes from one on, behind what is given.
    fn each_from<S: Share>(
        &self,
        share: &S,
        node: usize,
        stores: &mut [State],
        all: &mut Vec<S::Gives>,
    ) -> Result<(), NoMemory>
        ensures gives { IfOk result (λ _. all.new.items ≡ all.old.items ++ each_by (λ node. S.gives share.now node (node_context self.now.program.now node self.now.input.now)) node stores.old) }
        ensures leaves { IfOk result (λ _. stores.new ≡ each_by (λ node. S.leaves share.now node (node_context self.now.program.now node self.now.input.now)) node stores.old) }
    {
        match stores.split_first_mut() {
            None => Ok(()),
            Some((state, rest)) => {
                let given = self.gives(share, node, state)?;
                push(all, given)?;
                self.each_from(share, node + 1, rest, all)
            }
        }
    }

    /// What a node gives.
    fn gives<S: Share>(
        &self,
        share: &S,
        node: usize,
        state: &mut State,
    ) -> Result<S::Gives, NoMemory>
        ensures gives { IfOk result (λ given. given ≡ S.gives share.now node (node_context self.now.program.now node self.now.input.now) state.old) }
        ensures leaves { IfOk result (λ given. state.new ≡ S.leaves share.now node (node_context self.now.program.now node self.now.input.now) state.old) }
        ensures few { IfOk result (λ _. node + 1 < 2 ^ 32) }
    {
        match self.at(node) {
            Some(at) => share.run(node as u32, &at, state),
            None => Err(NoMemory),
        }
    }
}
