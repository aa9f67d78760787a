//! The program lifeview as a library: the words of its command line, the picture that it draws by
//! them, and its exit status.
#![tactic(auto)]

mod application;
mod asking;
mod command_line;
mod drawing;
mod picture_format;
mod picture_line;
mod rectangle;
mod shown;

pub use application::Lifeview;
pub use asking::{Asked, LARGEST_SIZE, SMALLEST_SIZE, View};
pub use command_line::NAME;
pub use drawing::{draw, draw_from};
pub use picture_format::{ImageFormat, picture_file};
pub use rectangle::drawing_of;
