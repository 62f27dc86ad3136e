//! What a loop directive does: which scalars and arrays its body writes, what each scalar is to it, at which offsets it
//! accesses elements, the forms of its reductions, and which functions have a loop that isn't counted.
#![tactic(auto)]

mod equal;
mod forms;
mod naming;
mod nodes;
mod offsets;
mod role;
mod roles;
mod tables;
mod uncounted;
mod written;

pub use equal::same;
pub use forms::{Form, assignment_form, guarded_form};
pub use naming::{is_bound, is_number, names, scalar_type, type_of};
pub use nodes::{nodes_in, nodes_of};
pub use offsets::{Reach, offsets_of};
pub use role::Role;
pub use roles::{bound_roles, roles_in};
pub use tables::{Numbers, Roles, flag};
pub use uncounted::{loopers, loops_in};
pub use written::{arrays_written, indices, scalars_written};
