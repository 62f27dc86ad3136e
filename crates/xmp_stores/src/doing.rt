// Every node by itself.
ghost use Rattle.std.specs.Prelude.{◌≡◌, ◌+◌, ◌<◌, ◌^◌, IfOk, IfSome};
ghost use Rattle.xmp_meaning.specs.Runs.{Does, state_of};
ghost use Rattle.xmp_meaning.specs.Traffic.{node_context};
ghost use Rattle.xmp_nodes.specs.Nodes.{Nodes, all_do};
ghost use Rattle.xmp_stores.specs.Contexts.{context_by};
ghost use Rattle.xmp_stores.specs.Each.{each_by};

use crate::deed::Deed;
use crate::nodes::Nodes;
use crate::together::Together;
use xmp_base::NoMemory;
use xmp_meaning::Halt;
use xmp_serial::{Interpreter, State};

impl<'p> Together<'_, 'p> {
    /// What a node's run is read against; there is none of a node that the program hasn't.
    pub fn at(&self, node: usize) -> Option<Interpreter<'_, 'p>>
        ensures context { IfSome result (λ at. context_by at ≡ node_context self.now.program.now node self.now.input.now) }
        ensures few { IfSome result (λ at. node + 1 < 2 ^ 32) }
    {
        let layout = self.layouts.get(node)?;
        Some(Interpreter {
            alloc: self.alloc,
            layout,
            node: 0,
            input: self.input,
        })
    }

    /// Every node does a deed by itself, on its own store, also behind a node that trapped; node 0's answer counts. Want of memory is
    /// answered also where there are more stores than nodes.
    pub fn all_do<D: Deed>(
        &self,
        deed: &D,
        none: D::Gives,
        nodes: &mut Nodes,
    ) -> Result<D::Gives, Halt>
        ensures { Does (all_do none (λ node. D.does deed.now node (node_context self.now.program.now node self.now.input.now)) nodes.old) result nodes.new }
    {
        self.first_and_others(deed, none, nodes.stores.as_mut_slice())
    }

    /// The same of the nodes' stores alone.
    fn first_and_others<D: Deed>(
        &self,
        deed: &D,
        none: D::Gives,
        stores: &mut [State],
    ) -> Result<D::Gives, Halt>
        ensures { (w : Nodes) → w.stores ≡ stores.old → Does (all_do none (λ node. D.does deed.now node (node_context self.now.program.now node self.now.input.now)) w) result (record w { stores = stores.new }) }
    {
        match stores.split_first_mut() {
            None => Ok(none),
            Some((state, rest)) => {
                let Some(at) = self.at(0) else {
                    return Err(Halt::NoMemory);
                };
                let answer = deed.run(0, &at, state);
                match self.others(deed, 1, rest) {
                    Ok(()) => answer,
                    Err(NoMemory) => Err(Halt::NoMemory),
                }
            }
        }
    }

    /// The stores of the nodes from one on, whose answers aren't asked.
    fn others<D: Deed>(&self, deed: &D, node: usize, stores: &mut [State]) -> Result<(), NoMemory>
        ensures { IfOk result (λ _. stores.new ≡ each_by (λ k s. state_of (D.does deed.now k (node_context self.now.program.now k self.now.input.now) s)) node stores.old) }
    {
        match stores.split_first_mut() {
            None => Ok(()),
            Some((state, rest)) => {
                self.leaves(deed, node, state)?;
                self.others(deed, node + 1, rest)
            }
        }
    }

    /// A node's store.
    fn leaves<D: Deed>(&self, deed: &D, node: usize, state: &mut State) -> Result<(), NoMemory>
        ensures state { IfOk result (λ _. state.new ≡ state_of (D.does deed.now node (node_context self.now.program.now node self.now.input.now) state.old)) }
        ensures few { IfOk result (λ _. node + 1 < 2 ^ 32) }
    {
        let Some(at) = self.at(node) else {
            return Err(NoMemory);
        };
        match deed.run(node as u32, &at, state) {
            Ok(_) => Ok(()),
            Err(Halt::End(_)) => Ok(()),
            Err(Halt::NoMemory) => Err(NoMemory),
        }
    }
}
