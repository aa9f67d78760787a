//! The devices that bytes are read from and written to, and three that every test can use.

mod counted;
mod fail_at;
mod history;
mod memory;
mod traits;

pub use counted::Counted;
pub use fail_at::FailAt;
pub use memory::Memory;
pub use traits::{Failed, Sink, Source, write_all};
