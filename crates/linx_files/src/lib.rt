//! linx_files: a file that is made by its name, and written as a sink. Making it is told apart from
//! writing it, so that a caller can make it before it does what is written there, and knows by name
//! why it couldn't. A file that was made holds nothing at first, whatever one of its name held, and
//! then what was written, in order.
#![tactic(auto)]

mod make_fault;
mod mem_new_file;
mod new_file;
mod system_new_file;

pub use make_fault::MakeFault;
pub use mem_new_file::MemNewFile;
pub use new_file::NewFile;
pub use system_new_file::SystemNewFile;
