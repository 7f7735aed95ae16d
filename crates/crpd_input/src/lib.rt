//! The inputs of the commands: sets, images, code, shapes, certificates and scripts, each with its
//! refusals.
#![tactic(auto)]

mod cause;
mod certificate;
mod code;
mod copies;
mod halt;
mod images;
mod input;
mod load;
mod refusal;
mod refuse;
mod script;
mod set;
mod shapes;

pub use cause::Cause;
pub use certificate::load_certificate;
pub use code::load_code;
pub use halt::Halt;
pub use input::load_input;
pub use refusal::Refusal;
pub use refuse::{refuse_address, refuse_count, refuse_name};
pub use script::load_script;
pub use set::load_task_set;
pub use shapes::{input_graphs, load_renewed, load_shaped, shape_input};
pub use task_shapes::{Input, ShapedSet};
