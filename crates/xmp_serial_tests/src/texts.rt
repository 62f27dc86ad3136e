// The typed programs of texts.
use std::alloc::Global;
use xmp_base::Fault;
use xmp_elab::{elaborate, text_numbers_lie};
use xmp_prog::Prog;
use xmp_source::tree_of;

/// The typed program of a text that is one.
pub(crate) fn typed(alloc: Global, text: &str) -> Result<Prog, Fault> {
    if text.len() > 1048576 {
        return Err(Fault::NoMemory);
    }
    let tree = tree_of(alloc, text.as_bytes())?;
    text_numbers_lie();
    elaborate(alloc, &tree, None)
}
